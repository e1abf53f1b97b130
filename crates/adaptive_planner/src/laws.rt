//! Laws over the definitions: each function has an empty body, and its contract is the law.

ghost use Rattle.adaptive_planner.specs.Laws.{HaveOnePlan, PlansAreGood, FaultsLeadHome};

/// Whole classes that the answers of a table distinguish have exactly one plan, if its rows are whole and 32 bits
/// number the patterns, the positions and the classes.
pub fn one_plan_of_a_table()
    ensures { HaveOnePlan }
{}

/// The plan of classes and a table that can be planned (`CanBePlanned`) is well formed and short, and leads each number
/// to its class. If a table has the answers of a circuit's faults, each fault's own answers lead to its class in such a
/// good plan.
pub fn plan_of_a_table_is_good()
    ensures good { PlansAreGood }
    ensures faults { FaultsLeadHome }
{}
