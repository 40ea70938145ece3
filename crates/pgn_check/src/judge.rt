ghost use Rattle.std.specs.Prelude.{◌≡◌, List, length, IfOk};
ghost use Rattle.pgn_language.specs.declared.scenario.Section.{Section};
ghost use Rattle.pgn_model.specs.declared.item.Item.{Item};
ghost use Rattle.pgn_model.specs.declared.trace.Trace.{Trace};
ghost use Rattle.pgn_model.specs.Legal.{finished_xids};
ghost use Rattle.pgn_walk.specs.Basis.{Tells, journal_of, terms_of};
ghost use Rattle.pgn_walk.specs.Steps.{Moves};
ghost use Rattle.pgn_check.specs.Walked.{IsJudged};

use pgn_ledger::are_all;
use pgn_model::Item;
use pgn_walk::{Basis, Span, Standing, is_borne_out, is_next_own};
use std::alloc::{AllocError, Global};

/// An item is allowed, the session's next, and borne out; then the session stands behind it.
#[tactic(auto, using(crate::proofs::WalkLaws::judged_by))]
pub fn takes(
    at: &mut Standing,
    alloc: Global,
    basis: &Basis,
    own: usize,
    item: &Item,
) -> Result<bool, AllocError>
    ensures { IfOk result (λ taken. (sections : List Section) (traces : List Trace) (before : List Item)
        → Tells basis.now sections traces → own ≡ length (finished_xids before)
        → IsJudged (terms_of basis.now) (journal_of basis.now) sections traces
        before at.old item.now taken at.new) }
{
    let next = is_next_own(basis.ledger, basis.section.no, own, item);
    let borne_out = is_borne_out(basis, &at.owed, item);
    let allowed = judge(at, alloc, basis, item)?;
    Ok(are_all(next, borne_out, allowed))
}

// It is allowed.
fn judge(at: &mut Standing, alloc: Global, basis: &Basis, item: &Item) -> Result<bool, AllocError>
    ensures { IfOk result
        (λ allowed. Moves (terms_of basis.now) (journal_of basis.now) at.old item.now allowed at.new) }
{
    match item {
        Item::Line { line } => at.line(alloc, basis.section, *line),
        Item::Enlist { base, point } => at.enlist(basis.ledger, *base, *point),
        Item::Publish { xid, .. } => at.publish(basis.section, basis.ledger, *xid),
        Item::QueueFull { full, .. } => Ok(at.meet_full(basis.section, basis.ledger, full)),
        Item::Leave => Ok(at.leave()),
        Item::Reply { tag, warning } => Ok(at.reply(tag, warning)),
        Item::Refuse { refusal } => Ok(at.refuse(refusal)),
        Item::Channels { names } => Ok(at.rows(names.as_slice())),
        Item::Used { usage } => { Ok(at.measure(basis.section, basis.limit, basis.ledger, usage)) }
        Item::Raise { value } => at.raise(*value),
        Item::Found { value } => at.find(*value),
        Item::TimedOut { looks } => Ok(at.time_out(basis.patience, *looks)),
        Item::Read { from, to, got } => {
            let span = Span {
                from: *from,
                to: *to,
            };
            at.read(basis.section, basis.ledger, &span, got)
        }
    }
}
