ghost use Rattle.pgn_laws.specs.Block.{WhatHandsOut, HandingOutEnds};

/// LISTEN, UNLISTEN, NOTIFY and pg_notify outside a block are transactions of their own, and COMMIT hands out what a block holds
/// that has not failed. Nothing else hands anything out, so a failed block sends nothing. After it no block is open.
#[tactic(auto, using(crate::proofs::EffectLaws::effect_laws))]
pub fn commits()
    ensures when { WhatHandsOut }
    ensures ends { HandingOutEnds }
{}
