//! The search for bridges by the rows of the lines. It tries bridges only at lines that, when turned, let the circuit
//! fit a chosen line of the log.

ghost use Rattle.std.specs.Prelude.{◌≡◌, ◌≢◌, ◌↔◌, ◌⊎◌, ◌+◌, ◌<◌, ◌≤◌, ◌^◌, ℕ, false, length, All, Contains, Some, IsTrue, OnOk, IfOk};
ghost use Rattle.net_model.specs.Circuit.{line_count};
ghost use Rattle.net_model.specs.Rows.{row_bit};
ghost use Rattle.bridging_faults.specs.declared.scored.ScoredBridge.{ScoredBridge};
ghost use Rattle.bridging_faults.specs.Bridge.{is_wired};
ghost use Rattle.bridging_faults.specs.Cones.{AreConesOf};
ghost use Rattle.bridging_faults.specs.Found.{kind_rank};
ghost use Rattle.bridging_faults.specs.LineRows.{HaveShape};
ghost use Rattle.bridging_faults.specs.Met.{crossing, is_apart, IsMetBelow, IsMetTo, IsMetKinds};
ghost use Rattle.bridging_faults.specs.Search.{meeting_line};
ghost use Rattle.bridging_faults.specs.Tried.{IsSought, IsReadyAt, IsTried, IsSearched};

use crate::best::Best;
use crate::bridge::{Bridge, BridgeKind};
use crate::cones::LineCones;
use crate::line_rows::{LineRows, is_explained_at, score, victim_at};
use net_model::Circuit;
use std::alloc::{AllocError, Global};

/// What is known of the lines, and which bridges are sought.
#[derive(Drop)]
pub(crate) struct Sought {
    pub(crate) rows: LineRows,
    /// Failing lines of the log; each bridge that is found explains one of them.
    pub(crate) chosen: Vec<u32>,
    /// How many failing lines may be left unexplained.
    pub(crate) within: u32,
    /// How many lines of the log are failing.
    pub(crate) failing: u32,
}

/// Returns the best of the bridges that are found in a circuit, at most `most` of them, with the counts of all.
pub(crate) fn search(
    alloc: Global,
    circuit: &Circuit,
    sought: &Sought,
    most: usize,
) -> Result<Best, AllocError>
    requires sought { IsSought circuit.now sought.now }
    ensures searched { IfOk result (IsSearched circuit.now sought.now (IsMetBelow circuit.now sought.now.rows sought.now.chosen.items (line_count circuit.now))) }
    ensures most { IfOk result (λ best. best.most ≡ most) }
{
    let mut cones = LineCones::new(alloc, circuit)?;
    let mut best = Best::none(alloc, most);
    for x in 0..circuit.lines() {
        if may_meet(sought, x) {
            cones.show(x);
            meet_line(&mut best, &cones, sought, x)?;
        }
    }
    Ok(best)
}

// Tries the bridges that are met at line `x`.
fn meet_line(best: &mut Best, cones: &LineCones, sought: &Sought, x: u32) -> Result<(), AllocError>
    requires ready { IsReadyAt cones.now sought.now x }
    requires searched { IsSearched cones.now.circuit.now sought.now (IsMetBelow cones.now.circuit.now sought.now.rows sought.now.chosen.items x) best.old }
    ensures most { best.new.most ≡ best.old.most }
    ensures searched { OnOk result (IsSearched cones.now.circuit.now sought.now (IsMetBelow cones.now.circuit.now sought.now.rows sought.now.chosen.items (x + 1)) best.new) }
{
    for y in 0..cones.circuit.lines() {
        if y != x {
            meet_pair(best, cones, sought, x, y)?;
        }
    }
    Ok(())
}

// Returns false only if the circuit with line `x` turned fits no chosen line of the log. Then no bridge is met at `x`.
fn may_meet(sought: &Sought, x: u32) -> bool
    requires x { x < length sought.now.rows.turned }
    requires wide { All (λ row. length row ≡ length sought.now.rows.free) sought.now.rows.turned }
    requires chosen { All (λ k. k < length sought.now.rows.free) sought.now.chosen.items }
    ensures { result ≡ false → (k : ℕ) → Contains sought.now.chosen.items k → row_bit sought.now.rows.turned x k ≡ false }
{
    for at in &sought.chosen {
        if sought.rows.turned.get(x as usize, *at as usize) {
            return true;
        }
    }
    false
}

// Tries the bridges of lines `x` and `y` in which `x` may be the victim.
fn meet_pair(
    best: &mut Best,
    cones: &LineCones,
    sought: &Sought,
    x: u32,
    y: u32,
) -> Result<(), AllocError>
    requires ready { IsReadyAt cones.now sought.now x }
    requires y { y < line_count cones.now.circuit.now }
    requires two { x ≢ y }
    requires searched { IsSearched cones.now.circuit.now sought.now (IsMetTo cones.now.circuit.now sought.now.rows sought.now.chosen.items x y) best.old }
    ensures most { best.new.most ≡ best.old.most }
    ensures searched { OnOk result (IsSearched cones.now.circuit.now sought.now (IsMetTo cones.now.circuit.now sought.now.rows sought.now.chosen.items x (y + 1)) best.new) }
{
    meet_kind(best, cones, sought, BridgeKind::And, x, y)?;
    meet_kind(best, cones, sought, BridgeKind::Or, x, y)?;
    meet_kind(best, cones, sought, BridgeKind::Dominant, x, y)
}

// Tries the one of this kind.
fn meet_kind(
    best: &mut Best,
    cones: &LineCones,
    sought: &Sought,
    kind: BridgeKind,
    x: u32,
    y: u32,
) -> Result<(), AllocError>
    requires ready { IsReadyAt cones.now sought.now x }
    requires y { y < line_count cones.now.circuit.now }
    requires two { x ≢ y }
    requires searched { IsSearched cones.now.circuit.now sought.now (IsMetKinds cones.now.circuit.now sought.now.rows sought.now.chosen.items x y (kind_rank kind)) best.old }
    ensures most { best.new.most ≡ best.old.most }
    ensures searched { OnOk result (IsSearched cones.now.circuit.now sought.now (IsMetKinds cones.now.circuit.now sought.now.rows sought.now.chosen.items x y (kind_rank kind + 1)) best.new) }
{
    meet(best, cones, sought, crossing(kind, x, y), x)
}

// Tries `bridge` at line `x`: if it is met there and found, it is put among the best.
fn meet(
    best: &mut Best,
    cones: &LineCones,
    sought: &Sought,
    bridge: Bridge,
    x: u32,
) -> Result<(), AllocError>
    requires ready { IsReadyAt cones.now sought.now x }
    requires first { bridge.first < line_count cones.now.circuit.now }
    requires second { bridge.second < line_count cones.now.circuit.now }
    requires few { best.old.found < 2 ^ 54 }
    requires exact { best.old.exact ≤ best.old.found }
    requires new { (s : ScoredBridge) → s.bridge ≡ bridge → meeting_line sought.now.rows sought.now.chosen.items bridge ≡ Some x → Contains best.old.listed.items s → ⊥ }
    ensures most { best.new.most ≡ best.old.most }
    ensures tried { OnOk result (IsTried cones.now.circuit.now sought.now bridge x best.old best.new) }
{
    if !meets(sought, bridge, x) {
        return Ok(());
    }
    let Some(scored) = score(&sought.rows, bridge, sought.within) else {
        return Ok(());
    };
    if !is_apart(cones, bridge, x) {
        return Ok(());
    }
    let is_exact = (scored.explained == sought.failing) & (scored.false_patterns == 0);
    best.add(scored, is_exact)
}

// Returns whether `bridge` is met at line `x`.
fn meets(sought: &Sought, bridge: Bridge, x: u32) -> bool
    requires shape { HaveShape sought.now.rows }
    requires chosen { All (λ k. k < length sought.now.rows.free) sought.now.chosen.items }
    requires first { bridge.first < length sought.now.rows.good }
    requires second { bridge.second < length sought.now.rows.good }
    ensures { IsTrue result ↔ (meeting_line sought.now.rows sought.now.chosen.items bridge ≡ Some x) }
{
    for at in &sought.chosen {
        if is_explained_at(&sought.rows, bridge, *at as usize) {
            return victim_at(&sought.rows, bridge, *at as usize) == x;
        }
    }
    false
}

// Returns whether `bridge` has no loop and, if it is wired, its first line is the lower one. One of its lines is `x`,
// whose cones are shown.
fn is_apart(cones: &LineCones, bridge: Bridge, x: u32) -> bool
    requires cones { AreConesOf x cones.now }
    requires one { (x ≡ bridge.first) ⊎ (x ≡ bridge.second) }
    requires first { bridge.first < line_count cones.now.circuit.now }
    requires second { bridge.second < line_count cones.now.circuit.now }
    ensures { result ≡ is_apart cones.now.circuit.now bridge }
{
    if cones.leads(x, bridge.second, bridge.first) {
        return false;
    }
    if !is_wired(bridge.kind) {
        return true;
    }
    (bridge.first < bridge.second) && !cones.leads(x, bridge.first, bridge.second)
}

// Returns whether both lines of such a bridge have the same role.
fn is_wired(kind: BridgeKind) -> bool
    ensures { result ≡ is_wired kind }
{
    match kind {
        BridgeKind::And => true,
        BridgeKind::Or => true,
        BridgeKind::Dominant => false,
    }
}

// Returns the bridge of lines `x` and `y` in which `x` may be the victim.
fn crossing(kind: BridgeKind, x: u32, y: u32) -> Bridge
    ensures { result ≡ crossing kind x y }
{
    match kind {
        BridgeKind::And => Bridge {
            kind: BridgeKind::And,
            first: x.min(y),
            second: x.max(y),
        },
        BridgeKind::Or => Bridge {
            kind: BridgeKind::Or,
            first: x.min(y),
            second: x.max(y),
        },
        BridgeKind::Dominant => Bridge {
            kind: BridgeKind::Dominant,
            first: y,
            second: x,
        },
    }
}
