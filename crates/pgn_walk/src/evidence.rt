ghost use Rattle.std.specs.Prelude.{◌≡◌, ◌↔◌, List, true, length, flat_map, Contains, None, IfOk, OnOk, slice_get};
ghost use Rattle.pgn_reading.specs.Shown.{raised_from, raised_in, ShowsMark};
ghost use Rattle.pgn_walk.specs.Pairs.{Gathers};
ghost use Rattle.pgn_walk.specs.Evidence.{IsEvidence, begins_line, flag_of_line, raised_by, stood_by, stood_in};
ghost use Rattle.pgn_language.specs.declared.scenario.Section.{Section};
ghost use Rattle.pgn_model.specs.declared.trace.Trace.{Trace};

use crate::pairs::Pairs;
use pgn_base::{Seed, SessionNo, Xid};
use pgn_language::{Act, ScriptLine, Section};
use pgn_model::{Item, Trace};
use std::alloc::{AllocError, Global};

/// What all traces show: the flags that they raise, and the marks at which sessions stood.
#[derive(Drop)]
pub struct Evidence {
    pub raised: Pairs,
    pub stood: Pairs,
}

impl Evidence {
    /// Of a trace for each section. Hashes are made with this seed.
    pub fn new(
        alloc: Global,
        seed: Seed,
        sections: &[Section],
        traces: &[Trace],
    ) -> Result<Evidence, AllocError>
        requires { length sections.now ≡ length traces.now }
        ensures { IfOk result
            (λ evidence. IsEvidence sections.now traces.now evidence.raised evidence.stood) }
    {
        let mut raised = Pairs::new(alloc, seed);
        raise_in(&mut raised, sections, traces)?;
        let mut stood = Pairs::new(alloc, seed);
        stand_in(&mut stood, traces)?;
        Ok(Evidence { raised, stood })
    }

    /// Some session raised the flag with this number.
    pub fn was_raised(&self, flag: u32, value: Xid) -> bool
        ensures { (sections : List Section) (traces : List Trace)
            → IsEvidence sections traces self.now.raised self.now.stood
            → (result ≡ true) ↔ Contains (raised_in sections traces) (flag, value) }
    {
        self.raised.has(flag, value.get())
    }

    /// The session stood at the mark.
    #[tactic(auto, using(crate::proofs::EvidenceLaws::stood_shows))]
    pub fn stood_at(&self, session: SessionNo, mark: Xid) -> bool
        ensures { (sections : List Section) (traces : List Trace)
            → IsEvidence sections traces self.now.raised self.now.stood
            → (result ≡ true) ↔ ShowsMark traces (session, mark) }
    {
        self.stood.has(session.get(), mark.get())
    }
}

// The flags of all traces.
fn raise_in(pairs: &mut Pairs, sections: &[Section], traces: &[Trace]) -> Result<(), AllocError>
    requires { length sections.now ≡ length traces.now }
    ensures { OnOk result (Gathers pairs.old pairs.new (raised_in sections.now traces.now)) }
{
    for at in 0..traces.len() {
        raise_all(
            pairs,
            sections[at].lines.as_slice(),
            traces[at].items.as_slice(),
        )?;
    }
    Ok(())
}

// The flags of a trace.
fn raise_all(pairs: &mut Pairs, lines: &[ScriptLine], items: &[Item]) -> Result<(), AllocError>
    ensures { OnOk result (Gathers pairs.old pairs.new (raised_from None lines.now items.now)) }
{
    let mut flag = None;
    let mut next = 0;
    for item in items {
        if begins_line(item) {
            flag = flag_of(lines, next);
            next += 1;
            continue;
        }
        raise(pairs, flag, item)?;
    }
    Ok(())
}

/// A line of the script begins.
pub fn begins_line(item: &Item) -> bool
    ensures { result ≡ begins_line item.now }
{
    matches!(item, Item::Line { .. })
}

// The flag of the line in a place, if there is one.
fn flag_of(lines: &[ScriptLine], next: usize) -> Option<u32>
    ensures { result ≡ flag_of_line (slice_get lines.now next) }
{
    if next >= lines.len() {
        return None;
    }
    match lines[next].act {
        Act::Signal(flag) => Some(flag),
        _ => None,
    }
}

// What an item raises.
#[tactic(auto, using(crate::proofs::PairLaws::gathers_none))]
fn raise(pairs: &mut Pairs, flag: Option<u32>, item: &Item) -> Result<(), AllocError>
    ensures { OnOk result (Gathers pairs.old pairs.new (raised_by flag item.now)) }
{
    let Item::Raise { value } = item else {
        return Ok(());
    };
    match flag {
        None => Ok(()),
        Some(flag) => pairs.put(flag, value.get()),
    }
}

// The marks of all traces.
fn stand_in(pairs: &mut Pairs, traces: &[Trace]) -> Result<(), AllocError>
    ensures { OnOk result (Gathers pairs.old pairs.new (stood_in traces.now)) }
{
    for trace in traces {
        stand_all(pairs, trace.session, trace.items.as_slice())?;
    }
    Ok(())
}

// The marks of a trace.
fn stand_all(pairs: &mut Pairs, session: SessionNo, items: &[Item]) -> Result<(), AllocError>
    ensures { OnOk result (Gathers pairs.old pairs.new (flat_map (stood_by session) items.now)) }
{
    for item in items {
        stand(pairs, session.get(), item)?;
    }
    Ok(())
}

// The marks of an item.
#[tactic(auto, using(crate::proofs::PairLaws::gathers_none, crate::proofs::PairLaws::gathers_both))]
fn stand(pairs: &mut Pairs, session: u32, item: &Item) -> Result<(), AllocError>
    ensures { OnOk result (Gathers pairs.old pairs.new (stood_by session item.now)) }
{
    match item {
        Item::Enlist { base, point } => {
            pairs.put(session, base.get())?;
            pairs.put(session, point.get())
        }
        Item::Read { to, .. } => pairs.put(session, to.get()),
        _ => Ok(()),
    }
}
