//! What an automaton file lists.

use crate::header::FileHeader;
use std::marker::Model;

/// Transitions from a state, by one digit on each track, to each of some states. None is `*`, a member of a set is given by
/// its place in the set, and a state by its place among the states.
#[derive(Drop)]
pub struct ListedLine {
    pub state: usize,
    pub digits: Vec<Option<u32>>,
    pub targets: Vec<usize>,
}

/// What a file lists: its header, the output of each state, of which the first is initial, and the transitions. In a
/// relation's file a state's output 0 rejects, and every other accepts. In a word's file the output is the state's letter, and None
/// is no letter. Each line is of listed states, and has a digit for each track.
#[derive(Drop)]
pub struct Listed {
    header: FileHeader,
    outputs: Vec<Option<i32>>,
    lines: Vec<ListedLine>,
}

impl Model for Listed {
    ghost use Rattle.dfa_reading.specs.Listed.{Listed as WhatIsListed, IsListed};
    ghost use Rattle.dfa_reading.specs.HeaderViews.{header_view};
    ghost use Rattle.dfa_reading.specs.LineViews.{lines_in};

    ghost Value = { WhatIsListed };

    ghost view = { λ l. record { header = header_view l.header; outputs = l.outputs.items; lines = lines_in l.lines.items } };

    ghost invariant = { λ l. IsListed (record { header = header_view l.header; outputs = l.outputs.items; lines = lines_in l.lines.items }) };
}

impl Listed {
    ghost use Rattle.std.specs.Prelude.{◌≡◌, length};
    ghost use Rattle.dfa_reading.specs.Listed.{Listed as WhatIsListed, IsListed};
    ghost use Rattle.dfa_reading.specs.HeaderViews.{header_view};
    ghost use Rattle.dfa_reading.specs.LineViews.{lines_in};

    /// The automaton with these tracks, states and transitions.
    pub fn new(header: FileHeader, outputs: Vec<Option<i32>>, lines: Vec<ListedLine>) -> Self
        requires { IsListed (record { header = header_view header; outputs = outputs.items; lines = lines_in lines.items }) }
        ensures { result ≡ record { header = header_view header; outputs = outputs.items; lines = lines_in lines.items } }
    {
        Listed {
            header,
            outputs,
            lines,
        }
    }

    /// What the first line of the file says of the tracks.
    pub fn header(&self) -> &FileHeader
        ensures { header_view result.now ≡ self.now.header }
    {
        &self.header
    }

    /// How many states there are.
    pub fn states(&self) -> usize
        ensures value { result ≡ length self.now.outputs }
        ensures listed { IsListed self.now }
    {
        self.outputs.len()
    }

    /// The output of each state, where None is no letter.
    pub fn outputs(&self) -> &[Option<i32>]
        ensures { result.now ≡ self.now.outputs }
    {
        &self.outputs
    }

    /// The transitions, in the order of the file.
    pub fn lines(&self) -> &[ListedLine]
        ensures lines { lines_in result.now ≡ self.now.lines }
        ensures listed { IsListed self.now }
    {
        &self.lines
    }
}
