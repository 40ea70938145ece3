ghost use Rattle.std.specs.Prelude.{◌≡◌, true, false, ◌∷◌, ◌++◌, map, replicate};
ghost use Rattle.pgn_answers.specs.declared.block_state.BlockState.TheVariants.{Idle, InBlock, Failed};
ghost use Rattle.pgn_block.specs.Effects.{takes_memory, effects_of};
ghost use Rattle.pgn_examples.specs.TakingMemory.{repeats, repeats_give, registers_and_leaves, registers_and_leaves_give, fails, fails_give, queries, queries_give, each_command};

/// What sessions' commands give, one after another.
pub fn sessions()
    ensures repeats { effects_of repeats ≡ repeats_give }
    ensures registers_and_leaves { effects_of registers_and_leaves ≡ registers_and_leaves_give }
    ensures fails { effects_of fails ≡ fails_give }
    ensures queries { effects_of queries ≡ queries_give }
{}

/// The first six of seventeen kinds of command take memory, SAVEPOINT in a block alone, and none in a failed block.
pub fn commands_that_take_memory()
    ensures idle { map (takes_memory Idle) each_command ≡ false ∷ replicate 5 true ++ replicate 11 false }
    ensures in_block { map (takes_memory InBlock) each_command ≡ replicate 6 true ++ replicate 11 false }
    ensures failed { map (takes_memory Failed) each_command ≡ replicate 17 false }
{}
