//! The check of a tree of cubes.

ghost use Rattle.std.specs.Prelude.{◌≡◌, ◌==◌, ◌↔◌, ◌∷◌, [], IsTrue, IsErrOf, IfOk, OnOk, false, length};
ghost use Rattle.std.specs.List.{list_any};
ghost use Rattle.net_model.specs.Fault.{IsFaultOf};
ghost use Rattle.pair_sets.specs.declared.state.PairState.TheVariants.{Undecided};
ghost use Rattle.pair_sets.specs.declared.tree.Token.TheVariants.{Split, Rest};
ghost use Rattle.pair_sets.specs.CubeState.{IsState};
ghost use Rattle.pair_sets.specs.PairSim.{pair_sim};
ghost use Rattle.pair_sets.specs.Tree.{IsRightAt, after_token, closed_count};
ghost use Rattle.evidence_rules.specs.declared.refusal.Refusal.{Refusal};
ghost use Rattle.evidence_rules.specs.TreeRefusal.{IsRightTree, TreeRefused};
ghost use Rattle.refute_check.specs.Walk.{IsTreeWalk, IsWalkFor, IsRightIn, IsVerdict, HasGoneOn, AreRightCounts, waiting_in, second_halves};

use evidence_rules::{CheckFault, EvidenceKind, RefusalKind, refused};
use net_model::{Circuit, Fault};
use pair_scope::PairScope;
use pair_sets::{PairSim, PairState, Token, Tree};
use std::alloc::{AllocError, Global};
use std::marker::Model;

/// Checks the tree of evidence about two faults, with a budget of `cubes` closed leaves. Returns no error only if the
/// tree is what this kind of evidence needs, and `Refused` with a kind and a step only if it isn't: a token is the
/// first wrong one, else the tree isn't whole, else its counts are wrong. The step is the place of that token, counted
/// from 0, or else the number of tokens.
pub fn check_tree(
    alloc: Global,
    circuit: &Circuit,
    f: &Fault,
    g: &Fault,
    tree: &Tree,
    kind: EvidenceKind,
    cubes: u32,
) -> Result<(), CheckFault>
    requires first { IsFaultOf circuit.now f.now }
    requires second { IsFaultOf circuit.now g.now }
    ensures right { OnOk result (IsRightTree circuit.now f.now g.now kind cubes tree.now) }
    ensures refused { (refusal : Refusal) → IsErrOf result (CheckFault.Refused refusal) → TreeRefused circuit.now f.now g.now kind cubes tree.now refusal }
{
    let mut trees = TreeChecker::new(alloc, circuit);
    trees.check(f, g, tree, kind, cubes)
}

/// Checks trees of evidence about pairs of a circuit's faults, one after another. The simulation is made for a tree
/// that needs it, and kept after a right one for the next, which then costs what its two faults reach.
#[derive(Debug, Drop)]
pub struct TreeChecker<'a> {
    alloc: Global,
    circuit: &'a Circuit,
    walk: Option<Walk<'a>>,
}

impl<'a> Model for TreeChecker<'a> {
    ghost use Rattle.net_model.specs.Circuit as spec;
    ghost use Rattle.refute_check.specs.TreeCheckerFields.{tree_checker_of, AreTreeCheckerFields};

    ghost Value = { spec.Circuit };

    ghost view = { tree_checker_of };

    ghost invariant = { AreTreeCheckerFields };
}

impl<'a> TreeChecker<'a> {
    /// Returns a checker of trees about faults of the circuit.
    pub fn new(alloc: Global, circuit: &'a Circuit) -> TreeChecker<'a>
        ensures { result ≡ circuit.now }
    {
        TreeChecker {
            alloc,
            circuit,
            walk: None,
        }
    }

    /// Checks a tree as `check_tree` does, with the same errors. The circuit stays the same, also after an error.
    pub fn check(
        &mut self,
        f: &Fault,
        g: &Fault,
        tree: &Tree,
        kind: EvidenceKind,
        cubes: u32,
    ) -> Result<(), CheckFault>
        requires first { IsFaultOf self.old f.now }
        requires second { IsFaultOf self.old g.now }
        ensures right { OnOk result (IsRightTree self.old f.now g.now kind cubes tree.now) }
        ensures refused { (refusal : Refusal) → IsErrOf result (CheckFault.Refused refusal) → TreeRefused self.old f.now g.now kind cubes tree.now refusal }
        ensures circuit { self.new ≡ self.old }
    {
        if is_open_leaf(tree) {
            return check_open_leaf(tree.as_slice(), kind, cubes);
        }
        let mut walk = self.begin(f, g)?;
        walk.check(tree.as_slice(), kind, cubes)?;
        self.walk = Some(walk);
        Ok(())
    }

    // Returns the walk at the root of a tree about two faults: the kept one if there is one.
    fn begin(&mut self, f: &Fault, g: &Fault) -> Result<Walk<'a>, AllocError>
        requires first { IsFaultOf self.old f.now }
        requires second { IsFaultOf self.old g.now }
        ensures walk { IfOk result IsTreeWalk }
        ensures sim { IfOk result (λ walk. walk.sim ≡ pair_sim self.old f.now g.now []) }
        ensures root { IfOk result (λ walk. waiting_in walk ≡ [] ∷ []) }
        ensures circuit { self.new ≡ self.old }
    {
        let mut walk = match self.walk.take() {
            Some(walk) => walk,
            None => Walk::new(self.alloc, self.circuit)?,
        };
        walk.restart(f, g);
        Ok(walk)
    }
}

// Returns true only if the tree is one open leaf. This is right at any cube, so nothing is simulated for it.
fn is_open_leaf(tree: &Tree) -> bool
    ensures { IsTrue result → tree.now ≡ Rest ∷ [] }
{
    let tokens = tree.as_slice();
    tokens.len() == 1 && tokens[0] == Token::Rest
}

// Checks the counts of a tree that is one open leaf.
fn check_open_leaf(tokens: &[Token], kind: EvidenceKind, cubes: u32) -> Result<(), CheckFault>
    ensures right { OnOk result (AreRightCounts kind cubes tokens.now) }
    ensures refused { (refusal : Refusal) → IsErrOf result (CheckFault.Refused refusal) → (¬ AreRightCounts kind cubes tokens.now) × (refusal ≡ record { kind = RefusalKind.WrongCount; step = length tokens.now }) }
{
    if has_right_counts(tokens, kind, cubes) {
        Ok(())
    } else {
        Err(refused(RefusalKind::WrongCount, tokens.len()))
    }
}

// A cube on the way through a tree: the splits above it with their bits, the last one last. There is none when the
// tree is whole.
#[derive(Debug, Drop)]
struct Walk<'a> {
    sim: PairSim<'a>,
    scope: PairScope<'a>,
    path: Vec<(u32, bool)>,
    sources: u32,
    whole: bool,
}

impl<'a> Walk<'a> {
    // Returns a walk for trees about faults of the circuit.
    fn new(alloc: Global, circuit: &'a Circuit) -> Result<Walk<'a>, AllocError>
        ensures { IfOk result (IsWalkFor circuit.now) }
    {
        Ok(Walk {
            sim: PairSim::new(alloc, circuit, &Fault::Free, &Fault::Free)?,
            scope: PairScope::new(alloc, circuit)?,
            path: Vec::new(alloc),
            sources: circuit.sources(),
            whole: false,
        })
    }

    // Goes to the root of a tree about two faults.
    fn restart(&mut self, f: &Fault, g: &Fault)
        requires walk { IsWalkFor self.old.sim.circuit self.old }
        requires first { IsFaultOf self.old.sim.circuit f.now }
        requires second { IsFaultOf self.old.sim.circuit g.now }
        ensures walk { IsTreeWalk self.new }
        ensures sim { self.new.sim ≡ pair_sim self.old.sim.circuit f.now g.now [] }
        ensures root { waiting_in self.new ≡ [] ∷ [] }
    {
        self.sim.restart(f, g);
        self.scope.show(*f, *g);
        self.path.clear();
        self.sources = self.sim.circuit().sources();
        self.whole = false;
    }

    // Goes through the whole tree from its root, and checks it as `check_tree` does. A right tree leaves a walk that
    // serves further trees.
    fn check(&mut self, tokens: &[Token], kind: EvidenceKind, cubes: u32) -> Result<(), CheckFault>
        requires walk { IsTreeWalk self.old }
        requires root { waiting_in self.old ≡ [] ∷ [] }
        ensures right { OnOk result (IsRightTree self.old.sim.circuit self.old.sim.f self.old.sim.g kind cubes tokens.now) }
        ensures refused { (refusal : Refusal) → IsErrOf result (CheckFault.Refused refusal) → TreeRefused self.old.sim.circuit self.old.sim.f self.old.sim.g kind cubes tokens.now refusal }
        ensures kept { OnOk result (IsWalkFor self.old.sim.circuit self.new) }
    {
        for (step, token) in tokens.iter().enumerate() {
            if let Some(rule) = self.wrong(*token) {
                return Err(refused(rule, step));
            }
            self.go_on(*token)?;
        }
        if !self.whole {
            return Err(refused(RefusalKind::BadTree, tokens.len()));
        }
        if !has_right_counts(tokens, kind, cubes) {
            return Err(refused(RefusalKind::WrongCount, tokens.len()));
        }
        Ok(())
    }

    // Returns the rule that the token breaks at the cube, if it breaks one.
    fn wrong(&self, token: Token) -> Option<RefusalKind>
        requires { IsTreeWalk self.now }
        ensures { IsVerdict self.now token result }
    {
        if self.whole {
            return Some(RefusalKind::BadTree);
        }
        match token {
            Token::Split(source) => {
                if self.can_split(source) {
                    None
                } else {
                    Some(RefusalKind::BadTree)
                }
            }
            Token::Closed => match self.sim.state() {
                PairState::AllSame => None,
                PairState::Apart(_) | PairState::Undecided => Some(RefusalKind::LeafOpen),
            },
            Token::Rest => None,
        }
    }

    // Whether the source can be split at the cube.
    fn can_split(&self, source: u32) -> bool
        requires { IsTreeWalk self.now }
        ensures { IsTrue result ↔ IsRightAt self.now.sim.circuit self.now.sim.f self.now.sim.g (Split source) self.now.sim.cube }
    {
        source < self.sources
            && self.scope.relevant(source)
            && !is_on_path(self.path.as_slice(), source)
            && self.is_undecided()
    }

    fn is_undecided(&self) -> bool
        requires { IsTreeWalk self.now }
        ensures { IsTrue result ↔ IsState self.now.sim.circuit self.now.sim.f self.now.sim.g self.now.sim.cube Undecided }
    {
        matches!(self.sim.state(), PairState::Undecided)
    }

    // Continues to the cube of the next token.
    fn go_on(&mut self, token: Token) -> Result<(), AllocError>
        requires walk { IsTreeWalk self.old }
        requires right { IsRightIn self.old token }
        ensures { OnOk result (HasGoneOn self.old self.new (after_token (waiting_in self.old) token)) }
    {
        match token {
            Token::Split(source) => self.go_down(source),
            Token::Closed | Token::Rest => self.go_up(),
        }
    }

    // Goes down to the first half of the cube.
    fn go_down(&mut self, source: u32) -> Result<(), AllocError>
        requires walk { IsTreeWalk self.old }
        requires right { IsRightIn self.old (Split source) }
        ensures { OnOk result (HasGoneOn self.old self.new (after_token (waiting_in self.old) (Split source))) }
    {
        self.path.push((source, false))?;
        self.sim.assign(source, false);
        Ok(())
    }

    // Goes up to the last split whose second half wasn't visited yet, and to that half. If there is none the tree is
    // whole.
    fn go_up(&mut self) -> Result<(), AllocError>
        requires walk { IsTreeWalk self.old }
        requires inside { self.old.whole ≡ false }
        ensures { OnOk result (HasGoneOn self.old self.new (second_halves self.old.sim.cube)) }
    {
        while let Some((source, bit)) = self.path.pop() {
            self.sim.undo();
            if !bit {
                self.path.push((source, true))?;
                self.sim.assign(source, true);
                return Ok(());
            }
        }
        self.whole = true;
        Ok(())
    }
}

// Whether the path has a split of the source.
fn is_on_path(path: &[(u32, bool)], source: u32) -> bool
    ensures { result ≡ list_any (λ half. half.0 == source) path.now }
{
    path.iter().any(|half| half.0 == source)
}

// Whether the tree has as many closed leaves, and open ones, as this kind of evidence needs.
fn has_right_counts(tokens: &[Token], kind: EvidenceKind, cubes: u32) -> bool
    ensures { IsTrue result ↔ AreRightCounts kind cubes tokens.now }
{
    let closed = closed_leaves(tokens);
    let has_open = tokens.contains(&Token::Rest);
    match kind {
        EvidenceKind::Covered => !has_open && closed <= cubes as usize,
        EvidenceKind::Refuted | EvidenceKind::Spent => has_open && closed == cubes as usize,
    }
}

// The number of closed leaves of the tree.
fn closed_leaves(tokens: &[Token]) -> usize
    ensures { result ≡ closed_count tokens.now }
{
    tokens
        .iter()
        .filter(|token| **token == Token::Closed)
        .count()
}
