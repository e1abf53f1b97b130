//! `EvidenceChecker`: the roots, the tree and the log of a pair, checked in space and a pool that are kept from pair to
//! pair.

ghost use Rattle.std.specs.Prelude.{◌≡◌, ◌≢◌, ◌≤◌, ◌<◌, ◌↔◌, [], List, IsTrue, IfOk, OnOk, IsErrOf};
ghost use Rattle.clause_pool.specs.Clauses.{Clause};
ghost use Rattle.net_model.specs.Fault.{IsFaultOf};
ghost use Rattle.net_model.specs.FaultList.{fault_count, fault_numbered};
ghost use Rattle.pair_miter.specs.Adds.{KeepsPlaces};
ghost use Rattle.pair_miter.specs.Miter.{miter};
ghost use Rattle.evidence_rules.specs.declared.refusal.Refusal.{Refusal};
ghost use Rattle.evidence_rules.specs.LogRefusal.{IsRightLog};
ghost use Rattle.evidence_rules.specs.TreeRefusal.{IsRightTree};
ghost use Rattle.result_records.specs.declared.limits.TheConstants.{CONFLICTS_LIMIT};
ghost use Rattle.result_file.specs.Lines.{HasRightRoots, IsRightProof};
ghost use Rattle.result_file.specs.Refusal.{PairRefused, ProofRefused};

use clause_pool::Pool;
use evidence_rules::{CheckFault, EvidenceKind};
use fault_collapse::Subject;
use net_model::{Circuit, Fault};
use pair_miter::{Log, MiterSpace, miter_is_small};
use pair_sets::Tree;
use refute_check::{TreeChecker, check_log};
use result_file::{Budgets, Evidence, Proof};
use std::alloc::{AllocError, Global};
use std::marker::Model;

// Checks evidence about the faults of a circuit, one after another. What a check needs is made for the first evidence
// that needs it and kept for the others, so that the cost of each depends on what its two faults reach.
#[derive(Drop)]
pub(crate) struct EvidenceChecker<'a> {
    alloc: Global,
    circuit: &'a Circuit,
    trees: TreeChecker<'a>,
    miters: Option<MiterSpace<'a>>,
    pool: Pool,
}

impl<'a> Model for EvidenceChecker<'a> {
    ghost use Rattle.dia_check.specs.EvidenceChecker as spec;
    ghost use Rattle.dia_check.specs.EvidenceCheckerFields.{evidence_checker_of, AreEvidenceCheckerFields};

    ghost Value = { spec.EvidenceChecker };

    ghost view = { evidence_checker_of };

    ghost invariant = { AreEvidenceCheckerFields };
}

impl<'a> EvidenceChecker<'a> {
    // Returns a checker for the faults of `circuit` with an empty pool.
    pub(crate) fn new(
        alloc: Global,
        circuit: &'a Circuit,
    ) -> Result<EvidenceChecker<'a>, AllocError>
        ensures circuit { IfOk result (λ checker. checker.circuit ≡ circuit.now) }
        ensures empty { IfOk result (λ checker. checker.pool.clauses ≡ []) }
    {
        Ok(EvidenceChecker {
            alloc,
            circuit,
            trees: TreeChecker::new(alloc, circuit),
            miters: None,
            pool: Pool::with_room(alloc, 0, 0)?,
        })
    }

    // Checks the proof of evidence within the budgets. The pool must be empty; after the call it is empty again,
    // whatever is returned, and has no fewer places. Returns `Refused` only if the proof isn't right, with the rule
    // that it breaks, and the token or chain that breaks it.
    pub(crate) fn check(
        &mut self,
        subject: &Subject,
        budgets: Budgets,
        evidence: &Evidence,
    ) -> Result<(), CheckFault>
        requires circuit { self.old.circuit ≡ subject.now }
        requires member { evidence.now.member < fault_count subject.now }
        requires partner { evidence.now.partner < fault_count subject.now }
        requires empty { self.old.pool.clauses ≡ [] }
        requires conflicts { budgets.conflicts ≤ CONFLICTS_LIMIT }
        ensures right { OnOk result (IsRightProof subject.now (fault_numbered subject.now evidence.now.partner) (fault_numbered subject.now evidence.now.member) budgets evidence.now.proof) }
        ensures refused { (refusal : Refusal) → IsErrOf result (CheckFault.Refused refusal) → ProofRefused subject.now (fault_numbered subject.now evidence.now.partner) (fault_numbered subject.now evidence.now.member) budgets evidence.now.proof refusal }
        ensures circuit { self.new.circuit ≡ self.old.circuit }
        ensures emptied { self.new.pool.clauses ≡ [] }
        ensures places { KeepsPlaces self.old.pool self.new.pool }
    {
        let f = subject.fault(evidence.partner);
        let g = subject.fault(evidence.member);
        match &evidence.proof {
            Proof::Collapse => Ok(()),
            Proof::Covered(tree) => {
                let kind = EvidenceKind::Covered;
                self.trees.check(&f, &g, tree, kind, budgets.cubes)
            }
            Proof::Refuted(tree, log) => {
                let kind = EvidenceKind::Refuted;
                self.check_pair(&f, &g, kind, budgets, tree, log)
            }
            Proof::Spent(tree, log) => {
                let kind = EvidenceKind::Spent;
                self.check_pair(&f, &g, kind, budgets, tree, log)
            }
        }
    }

    // Checks a tree, and then a log over the miter of the two faults.
    fn check_pair(
        &mut self,
        f: &Fault,
        g: &Fault,
        kind: EvidenceKind,
        budgets: Budgets,
        tree: &Tree,
        log: &Log,
    ) -> Result<(), CheckFault>
        requires first { IsFaultOf self.old.circuit f.now }
        requires second { IsFaultOf self.old.circuit g.now }
        requires kind { kind ≢ EvidenceKind.Covered }
        requires empty { self.old.pool.clauses ≡ [] }
        requires conflicts { budgets.conflicts ≤ CONFLICTS_LIMIT }
        ensures tree { OnOk result (IsRightTree self.old.circuit f.now g.now kind budgets.cubes tree.now) }
        ensures log { OnOk result (IsRightLog kind (miter self.old.circuit f.now g.now) budgets.conflicts log.now) }
        ensures refused { (refusal : Refusal) → IsErrOf result (CheckFault.Refused refusal) → PairRefused self.old.circuit f.now g.now kind budgets tree.now log.now refusal }
        ensures circuit { self.new.circuit ≡ self.old.circuit }
        ensures emptied { self.new.pool.clauses ≡ [] }
        ensures places { KeepsPlaces self.old.pool self.new.pool }
    {
        self.trees.check(f, g, tree, kind, budgets.cubes)?;
        let conflicts = budgets.conflicts;
        if needs_no_clauses(kind, conflicts, log) {
            return Ok(());
        }
        miter_is_small();
        let space = self.space()?;
        let empty = self.pool.mark();
        let miter = space.build(f, g, &mut self.pool)?;
        let checked = check_log(self.alloc, &miter, &mut self.pool, log, kind, conflicts);
        self.pool.release(empty);
        self.miters = Some(miter.into_space());
        checked
    }

    // Returns the space for a miter: the kept one if there is one, else a new one.
    fn space(&mut self) -> Result<MiterSpace<'a>, AllocError>
        ensures space { IfOk result (λ space. space ≡ self.old.circuit) }
        ensures same { self.new ≡ self.old }
    {
        match self.miters.take() {
            Some(space) => Ok(space),
            None => MiterSpace::new(self.alloc, self.circuit),
        }
    }
}

// Returns whether the roots of the two faults are as the proof needs them: equal for a proof by collapse, different for
// any other.
pub(crate) fn has_right_roots(subject: &Subject, evidence: &Evidence) -> bool
    requires member { evidence.now.member < fault_count subject.now }
    requires partner { evidence.now.partner < fault_count subject.now }
    ensures { IsTrue result ↔ HasRightRoots subject.now (fault_numbered subject.now evidence.now.partner) (fault_numbered subject.now evidence.now.member) evidence.now.proof }
{
    let same = subject.same_root(evidence.partner, evidence.member);
    match &evidence.proof {
        Proof::Collapse => same,
        Proof::Covered(_) | Proof::Refuted(_, _) | Proof::Spent(_, _) => !same,
    }
}

// Returns true only if the log is right over any clauses, so that none have to be built for it: the evidence is spent,
// the budget is 0, and the log has no chains.
fn needs_no_clauses(kind: EvidenceKind, conflicts: u32, log: &Log) -> bool
    ensures { IsTrue result → (clauses : List Clause) → IsRightLog kind clauses conflicts log.now }
{
    match kind {
        EvidenceKind::Spent if conflicts == 0 => log.as_slice().is_empty(),
        _ => false,
    }
}
