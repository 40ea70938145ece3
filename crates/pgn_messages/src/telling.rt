#![tactic(auto, using(crate::proofs::BytesLaws::joins))]

ghost use Rattle.std.specs.Prelude.{◌≡◌, ◌++◌, flat_map, IfOk, OnOk};
ghost use Rattle.pgn_messages.specs.Turns.{farewell, heard};

use crate::{Bytes, Parting};
use pgn_model::Item;
use std::alloc::{AllocError, Global};

/// What a client is told of these reads, between two lines: a notification for each delivery, at once.
pub fn tell_reads(alloc: Global, reads: &[Item]) -> Result<Vec<u8>, AllocError>
    ensures { IfOk result (λ bytes. bytes.items ≡ flat_map heard reads.now) }
{
    let bytes = all_heard(alloc, reads)?;
    Ok(bytes.into_vec())
}

/// What a client is told of its own end.
pub fn tell_parting(alloc: Global, parting: Parting) -> Result<Vec<u8>, AllocError>
    ensures { IfOk result (λ bytes. bytes.items ≡ farewell parting) }
{
    let bytes = farewell_of(alloc, parting)?;
    Ok(bytes.into_vec())
}

// What is heard by these items.
fn all_heard(alloc: Global, reads: &[Item]) -> Result<Bytes, AllocError>
    ensures { IfOk result (λ bytes. bytes ≡ flat_map heard reads.now) }
{
    let mut bytes = Bytes::new(alloc);
    put_reads(&mut bytes, reads)?;
    Ok(bytes)
}

/// Puts what is heard of these items at the end.
pub fn put_reads(bytes: &mut Bytes, reads: &[Item]) -> Result<(), AllocError>
    ensures { OnOk result (bytes.new ≡ bytes.old ++ flat_map heard reads.now) }
{
    for item in reads {
        put_heard(bytes, item)?;
    }
    Ok(())
}

fn put_heard(bytes: &mut Bytes, item: &Item) -> Result<(), AllocError>
    ensures { OnOk result (bytes.new ≡ bytes.old ++ heard item.now) }
{
    match item {
        Item::Read { got, .. } => bytes.put_notifications(got.as_slice()),
        _ => Ok(()),
    }
}

// Why a client's server ends the conversation.
fn farewell_of(alloc: Global, parting: Parting) -> Result<Bytes, AllocError>
    ensures { IfOk result (λ bytes. bytes ≡ farewell parting) }
{
    let mut bytes = Bytes::new(alloc);
    put_farewell(&mut bytes, parting)?;
    Ok(bytes)
}

fn put_farewell(bytes: &mut Bytes, parting: Parting) -> Result<(), AllocError>
    ensures { OnOk result (bytes.new ≡ bytes.old ++ farewell parting) }
{
    match parting {
        Parting::Plain => Ok(()),
        Parting::Refused => bytes.put_fatal(b"08P01", b"bad message"),
        Parting::Extended => {
            bytes.put_fatal(b"0A000", b"the extended protocol is not supported")
        }
        Parting::Spent => bytes.put_fatal(b"53400", b"too many notifications"),
    }
}
