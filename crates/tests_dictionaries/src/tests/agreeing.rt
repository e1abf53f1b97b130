//! Whether members of one class have the same answers, decided number by number.

ghost use Rattle.std.specs.Prelude.{◌≡◌, ◌<◌, length, IsTrue};
ghost use Rattle.dict_rows.specs.AnswerTable.{answer_to};
ghost use Rattle.samediff_dict.specs.Numbered.{AnswerAlike};
ghost use Rattle.tests_dictionaries.specs.Leads.{AnswerAsLeads};

use class_refine::Classes;
use table_dicts::AnswerTable;

/// Returns whether members of one class have the same answers.
pub(crate) fn alike(table: &AnswerTable, classes: &Classes) -> bool
    requires { length classes.now.class_of ≡ table.now.numbers }
    ensures { IsTrue result → AnswerAlike classes.now table.now }
{
    for pattern in 0..table.patterns() {
        if !alike_at(table, classes, pattern) {
            return false;
        }
    }
    true
}

// Returns whether each number answers a pattern as the lowest member of its class does.
fn alike_at(table: &AnswerTable, classes: &Classes, pattern: u32) -> bool
    requires numbers { length classes.now.class_of ≡ table.now.numbers }
    requires pattern { pattern < length table.now.rows }
    ensures { IsTrue result → AnswerAsLeads classes.now table.now pattern table.now.numbers }
{
    for number in 0..table.numbers() {
        let lead = classes.representative(classes.class_of(number));
        if !same_answers(table, pattern, number, lead) {
            return false;
        }
    }
    true
}

fn same_answers(table: &AnswerTable, pattern: u32, left: u32, right: u32) -> bool
    requires pattern { pattern < length table.now.rows }
    requires left { left < table.now.numbers }
    requires right { right < table.now.numbers }
    ensures { IsTrue result → answer_to table.now pattern left ≡ answer_to table.now pattern right }
{
    for position in 0..table.positions() {
        if table.get(pattern, left, position) != table.get(pattern, right, position) {
            return false;
        }
    }
    true
}
