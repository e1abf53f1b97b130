//! What settles a number and its representative, by a search or the solver: a cube whose vectors separate them, or
//! evidence.

ghost use Rattle.std.specs.Prelude.{◌≡◌, ◌≢◌, ◌<◌, ◌≤◌, Some, IfOk, OnOk, length, slice_set};
ghost use Rattle.clause_pool.specs.Clauses.{BeginsWith};
ghost use Rattle.net_model.specs.Answer.{bit_at};
ghost use Rattle.net_model.specs.Circuit.{IsCircuit};
ghost use Rattle.net_model.specs.Fault.{IsFaultOf};
ghost use Rattle.net_model.specs.FaultList.{fault_count, fault_numbered};
ghost use Rattle.pair_miter.specs.Miter as spec;
ghost use Rattle.result_records.specs.declared.limits.TheConstants.{CONFLICTS_LIMIT};
ghost use Rattle.dia_gen.specs.Settled.{IsSpaceFor, HasRelevant, IsSettledFor, IsSearchedFor, IsOpenFor, IsSolvedFor, IsSettledBy};

use crate::ahead::Ahead;
use crate::setting::GenerationSetting;
use clause_pool::Pool;
use distinguish_search::{Searched, search_with};
use learn_solver::{Solved, solve, trim};
use net_model::{Fault, Vector};
use pair_miter::{Log, Miter, MiterSpace};
use pair_sets::{PairSim, Token, Tree};
use result_file::Proof;
use std::alloc::{AllocError, Global};

// A cube whose vectors all separate the two, or evidence for them.
#[derive(Drop)]
pub(crate) enum Settled {
    Apart(Vec<Option<bool>>),
    By(Proof),
}

// The space in which pairs are settled one after another, so that the cost of each depends on what its faults reach:
// the simulation that a search restarts, the space of miters, which is made for the first pair that the solver takes,
// the pool of their clauses, which is empty between two pairs, and what was found for pairs before their turn.
#[derive(Drop)]
pub(crate) struct PairSpace<'a> {
    pub(crate) sim: PairSim<'a>,
    pub(crate) miters: Option<MiterSpace<'a>>,
    pub(crate) pool: Pool,
    pub(crate) ahead: Ahead,
}

impl<'a> PairSpace<'a> {
    pub(crate) fn new(
        alloc: Global,
        setting: &GenerationSetting<'a>,
    ) -> Result<PairSpace<'a>, AllocError>
        ensures { IfOk result (IsSpaceFor setting.now.circuit setting.now.budgets) }
    {
        let ahead = Ahead::new(alloc, setting)?;
        Ok(PairSpace {
            sim: PairSim::new(alloc, setting.circuit(), &Fault::Free, &Fault::Free)?,
            miters: None,
            pool: Pool::with_room(alloc, 0, 0)?,
            ahead,
        })
    }
}

// Settles a pair of numbers by their roots, else by what a search finds if there is a budget of cubes, else by what the
// solver learns if there is a budget of conflicts.
pub(crate) fn settle_pair(
    alloc: Global,
    setting: &GenerationSetting,
    space: &mut PairSpace,
    lead: u32,
    member: u32,
) -> Result<Settled, AllocError>
    requires lead { lead < fault_count setting.now.circuit }
    requires member { member < fault_count setting.now.circuit }
    requires circuit { IsCircuit setting.now.circuit }
    requires space { IsSpaceFor setting.now.circuit setting.now.budgets space.old }
    ensures settled { IfOk result (IsSettledFor setting.now.circuit setting.now.budgets lead member) }
    ensures space { OnOk result (IsSpaceFor setting.now.circuit setting.now.budgets space.new) }
{
    if setting.same_root(lead, member) {
        return Ok(Settled::By(Proof::Collapse));
    }
    match find(alloc, setting, space, lead, member)? {
        Searched::Apart(cube) => Ok(Settled::Apart(cube)),
        Searched::Covered(tree) => Ok(Settled::By(Proof::Covered(tree))),
        Searched::Spent(tree) => {
            let (f, g) = (setting.fault(lead), setting.fault(member));
            learn(alloc, setting, space, &f, &g, tree)
        }
    }
}

// Returns what a search of cubes finds for a pair of numbers: what is already known of them, else the result of a
// search now. Without a budget of cubes, returns the tree of one open leaf.
pub(crate) fn find(
    alloc: Global,
    setting: &GenerationSetting,
    space: &mut PairSpace,
    lead: u32,
    member: u32,
) -> Result<Searched, AllocError>
    requires lead { lead < fault_count setting.now.circuit }
    requires member { member < fault_count setting.now.circuit }
    requires space { IsSpaceFor setting.now.circuit setting.now.budgets space.old }
    ensures found { IfOk result (IsSearchedFor setting.now.circuit (fault_numbered setting.now.circuit lead) (fault_numbered setting.now.circuit member) setting.now.budgets) }
    ensures space { OnOk result (IsSpaceFor setting.now.circuit setting.now.budgets space.new) }
{
    if let Some(found) = space.ahead.take(lead, member) {
        return Ok(found);
    }
    let cubes = setting.budgets().cubes;
    if cubes > 0 {
        let (f, g) = (setting.fault(lead), setting.fault(member));
        return search_with(alloc, &mut space.sim, setting.levels(), &f, &g, cubes);
    }
    let mut tree = Tree::new(alloc);
    tree.push(Token::Rest)?;
    Ok(Searched::Spent(tree))
}

// Settles by the solver a pair that `tree` leaves open. Without a budget of conflicts, returns `Spent` evidence with an
// empty log.
fn learn(
    alloc: Global,
    setting: &GenerationSetting,
    space: &mut PairSpace,
    f: &Fault,
    g: &Fault,
    tree: Tree,
) -> Result<Settled, AllocError>
    requires first { IsFaultOf setting.now.circuit f.now }
    requires second { IsFaultOf setting.now.circuit g.now }
    requires circuit { IsCircuit setting.now.circuit }
    requires open { IsOpenFor setting.now.circuit f.now g.now setting.now.budgets tree }
    requires space { IsSpaceFor setting.now.circuit setting.now.budgets space.old }
    ensures settled { IfOk result (IsSettledBy setting.now.circuit f.now g.now setting.now.budgets) }
    ensures space { OnOk result (IsSpaceFor setting.now.circuit setting.now.budgets space.new) }
{
    if setting.budgets().conflicts == 0 {
        return Ok(Settled::By(Proof::Spent(tree, Log::new(alloc))));
    }
    let empty = space.pool.mark();
    let miters = match space.miters.take() {
        Some(miters) => miters,
        None => MiterSpace::new(alloc, space.sim.circuit())?,
    };
    let miter = miters.build(f, g, &mut space.pool)?;
    let settled = settle_miter(alloc, setting, &miter, &mut space.pool, tree)?;
    space.pool.release(empty);
    space.miters = Some(miter.into_space());
    Ok(settled)
}

// What the solver makes of a miter's pair, which a tree leaves open. The pool has the miter's clauses.
fn settle_miter(
    alloc: Global,
    setting: &GenerationSetting,
    miter: &Miter,
    pool: &mut Pool,
    tree: Tree,
) -> Result<Settled, AllocError>
    requires is_circuit { IsCircuit setting.now.circuit }
    requires circuit { miter.now.circuit ≡ setting.now.circuit }
    requires some { setting.now.budgets.conflicts ≢ 0 }
    requires open { IsOpenFor setting.now.circuit miter.now.f miter.now.g setting.now.budgets tree }
    requires clauses { pool.old.clauses ≡ spec.miter miter.now.circuit miter.now.f miter.now.g }
    ensures settled { IfOk result (IsSettledBy setting.now.circuit miter.now.f miter.now.g setting.now.budgets) }
    ensures begins { BeginsWith pool.new.clauses pool.old.clauses }
{
    let solved = solve_pair(alloc, miter, pool, setting.budgets().conflicts)?;
    match solved {
        Solved::Vector(v) => Ok(Settled::Apart(cube_of(alloc, miter, &v)?)),
        Solved::Refuted(log) => Ok(Settled::By(Proof::Refuted(tree, log))),
        Solved::Spent(log) => Ok(Settled::By(Proof::Spent(tree, log))),
    }
}

// Returns what the solver finds for the pair of `miter` within `conflicts` conflicts. The pool has the miter's clauses.
// A refutation is trimmed to the chains that its end needs.
fn solve_pair(
    alloc: Global,
    miter: &Miter,
    pool: &mut Pool,
    conflicts: u32,
) -> Result<Solved, AllocError>
    requires some { conflicts ≢ 0 }
    requires limit { conflicts ≤ CONFLICTS_LIMIT }
    requires clauses { pool.old.clauses ≡ spec.miter miter.now.circuit miter.now.f miter.now.g }
    ensures solved { IfOk result (IsSolvedFor miter.now.circuit miter.now.f miter.now.g conflicts) }
    ensures begins { BeginsWith pool.new.clauses pool.old.clauses }
{
    let count = miter.clause_count();
    let solved = solve(alloc, miter, pool, conflicts)?;
    match solved {
        Solved::Vector(v) => Ok(Solved::Vector(v)),
        Solved::Refuted(log) => Ok(Solved::Refuted(trim(alloc, &log, count)?)),
        Solved::Spent(log) => Ok(Solved::Spent(log)),
    }
}

// Returns the cube of the bits that `v` has at the relevant sources of the miter's faults. Its other sources are free.
fn cube_of(alloc: Global, miter: &Miter, v: &Vector) -> Result<Vec<Option<bool>>, AllocError>
    requires { length v.now ≡ miter.now.circuit.sources }
    ensures width { IfOk result (λ cube. length cube.items ≡ length v.now) }
    ensures fixed { IfOk result (λ cube. HasRelevant miter.now.circuit miter.now.f miter.now.g v.now cube.items) }
{
    let mut cube = vec![in alloc; None; v.len()]?;
    let relevant = miter.relevant_lines();
    for line in relevant {
        fix_source(&mut cube, v, *line);
    }
    Ok(cube)
}

// Fixes `line` in the cube at the bit that `v` has there, if `line` is a source.
fn fix_source(cube: &mut Vec<Option<bool>>, v: &Vector, line: u32)
    requires { length cube.old.items ≡ length v.now }
    ensures source { line < length v.now → cube.new.items ≡ slice_set cube.old.items line (Some (bit_at v.now line)) }
    ensures others { length v.now ≤ line → cube.new.items ≡ cube.old.items }
{
    let source = line as usize;
    if source < v.len() {
        cube[source] = Some(v.get(source));
    }
}
