// The theory of matching block by block: each function stands for the theorems that its contract cites.

#![tactic(auto)]

ghost use Rattle.theory.specs.Block.{OneBlock};
ghost use Rattle.theory.specs.Passes.{PassesEnd, PassesFall};
ghost use Rattle.theory.specs.Shown.{ClosingBlocks, OpenBlocks};
ghost use Rattle.theory.specs.Whole.{FirstBorder, ManyBlocks, NextBlock};
ghost use Rattle.theory.specs.Written.{WrittenBlocks, WrittenMatches};

// One block: what a pass that changes no register gives.
pub fn one_block_stands()
    ensures { OneBlock }
{}

// A pass changes no register or leaves less room in them, so that a block ends.
pub fn passes_end()
    ensures fall { PassesFall }
    ensures end { PassesEnd }
{}

// Block after block: the marks are just the places at which a match ends.
pub fn many_blocks_stand()
    ensures first { FirstBorder }
    ensures next { NextBlock }
    ensures many { ManyBlocks }
{}

// A form written out as a pattern matches where the form does, and so its blocks show where the form's matches end.
pub fn written_forms_stand()
    ensures matches { WrittenMatches }
    ensures blocks { WrittenBlocks }
{}

// The ends that blocks show are the ends of the recording, while it runs and once it is closed.
pub fn blocks_show_ends()
    ensures running { OpenBlocks }
    ensures closed { ClosingBlocks }
{}
