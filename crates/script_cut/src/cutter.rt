// A script, one item after another.
ghost use Rattle.std.specs.Prelude.{◌≡◌, ◌⊎◌, ℕ, ◌+◌, ◌-◌, ◌<◌, ◌≤◌, nat_le, Bool, true, false, not, IsTrue, if◌then◌else◌, List, [], ◌++◌, length, take, drop, slice_index, Ok, Err, OnOk, OnErr, IfErr, IsErrOf, ◌==◌};
ghost use Rattle.wal_outside.specs.Causes.{CountsFault};
ghost use Rattle.script_cut.specs.Asking.{is_failed_cut};
ghost use Rattle.script_cut.specs.Lengths.{gap_count, gap_open, text_count, text_open};
ghost use Rattle.script_cut.specs.Kept.{kept_bytes, fresh, IsWithin, advance};
ghost use Rattle.script_cut.specs.Passing.{IsSupplied, IsRefilled, Supplies, PassesGaps, PassesText};
ghost use Rattle.script_cut.specs.Texts.{unbroken};
ghost use Rattle.script_cut.specs.Cuts.{HasNoCommand};
ghost use Rattle.script_cut.specs.Reading.{IsStill, IsStillAfterGaps};
ghost use Rattle.script_cut.specs.Cutting.{HasCut, EndsScript};
ghost use Rattle.script_cut.specs.declared.cut.Cut.TheVariants.{End};
ghost use Rattle.script_cut.specs.declared.cut.CutFault.TheVariants.{Failed as SourceFailed, Memory};

use crate::cut::{Cut, CutFault};
use crate::scanning::{Stretch, gaps_of, line_ends, text_of};
use crate::window::Window;
use std::alloc::Global;
use std::marker::Model;
use std::mem;
use wal_outside::{Failed, Source};

/// How many bytes of a script are read as commands.
pub const SCRIPT_LIMIT: usize = 16_777_216;

/// How many bytes a command may have.
pub const TEXT_LIMIT: usize = 65_536;

/// Cuts a script into commands.
#[derive(Drop)]
pub struct Cutter {
    alloc: Global,
    /// What was passed of a command that has not ended, while it is not too long.
    text: Vec<u8>,
    window: Window,
    /// How many bytes may still be passed.
    room: usize,
    line: u64,
    /// Whether the source has ended.
    over: bool,
}

/// How long a text is, and how it ended: by a terminator that shows the steps or not, or by the script's end.
#[derive(Clone, Copy)]
struct Scanned {
    len: usize,
    shown: Option<bool>,
}

impl Model for Cutter {
    ghost use Rattle.script_cut.specs.Kept.{Kept, IsWithin};

    ghost Value = { Kept };

    ghost view = { λ c. record { text = c.text.items; held = c.window; room = c.room; line = c.line; over = c.over } };

    ghost invariant = { λ c. IsWithin (record { text = c.text.items; held = c.window; room = c.room; line = c.line; over = c.over }) };
}

impl Cutter {
    /// A cutter at the start of a script. It takes no memory.
    pub fn new(alloc: Global) -> Cutter
        ensures { result ≡ fresh }
    {
        Cutter {
            alloc,
            text: Vec::new(alloc),
            window: Window::new(),
            room: SCRIPT_LIMIT,
            line: 1,
            over: false,
        }
    }

    /// Counts `count` bytes that are read elsewhere towards the limit of 16,777,216 bytes.
    ///
    /// False if and only if they would pass it, and then they are not counted.
    pub fn spend(&mut self, count: u64) -> bool
        ensures fits { result ≡ nat_le count self.old.room }
        ensures counted { self.new ≡ record self.old { room = (if nat_le count self.old.room then self.old.room - count else self.old.room) } }
        ensures bound { length (kept_bytes self.new) ≤ 65537 }
    {
        if count > self.room as u64 {
            return false;
        }
        self.room -= count as usize;
        true
    }

    /// The next command of the script, whose bytes `from` gives. It reads only where what it holds has no
    /// whole command, no more than one byte past the limit of the script, and not again once a command is
    /// whole or the script has ended.
    ///
    /// # Errors
    /// `Syntax` where the script ends in a text without terminator; then it gives `End`, as after `End`. `Long` where a
    /// command is too long; then it goes on after that command. `ScriptLimit` where the limit of the script comes
    /// first, `Failed` where the source failed, `Memory`: what was given before is, and the cutter is to be dropped.
    pub fn cut<S: Source>(&mut self, from: &mut S) -> Result<Cut, CutFault>
        ensures cut { HasCut self.old (S.view from.old) result self.new (S.view from.new) }
        ensures last { EndsScript result self.new }
        ensures again { self.old.over ≡ true → (result ≡ Ok End) × ((self.new.over ≡ true) × (from.new ≡ from.old)) }
        ensures still { (from.new ≡ from.old) ⊎ HasNoCommand self.old.held }
        ensures bound { length (kept_bytes self.new) ≤ 65537 }
        ensures faults { CountsFault (is_failed_cut result) (S.view from.old).faults (S.view from.new).faults }
    {
        self.text.clear();
        if self.over {
            return Ok(Cut::End);
        }
        let answer = self.next_item(from);
        let _ = &self.text;
        answer
    }

    /// The next command, where the script has not ended.
    fn next_item<S: Source>(&mut self, from: &mut S) -> Result<Cut, CutFault>
        requires empty { self.old.text ≡ [] }
        requires begun { self.old.over ≡ false }
        ensures cut { HasCut self.old (S.view from.old) result self.new (S.view from.new) }
        ensures last { EndsScript result self.new }
        ensures still { (from.new ≡ from.old) ⊎ HasNoCommand self.old.held }
        ensures faults { CountsFault (is_failed_cut result) (S.view from.old).faults (S.view from.new).faults }
    {
        if !self.pass_gaps(from)? {
            return Ok(Cut::End);
        }
        let line = self.line;
        let scanned = self.pass_text(from)?;
        if scanned.len > TEXT_LIMIT {
            return Err(CutFault::Long(line));
        }
        match scanned.shown {
            Some(shown) => {
                let text = mem::replace(&mut self.text, Vec::new(self.alloc));
                Ok(Cut::Command(text, shown, line))
            }
            None => Err(CutFault::Syntax(line, scanned.len)),
        }
    }

    /// Goes to the next command; false where there is none.
    fn pass_gaps<S: Source>(&mut self, from: &mut S) -> Result<bool, CutFault>
        requires { self.old.over ≡ false }
        ensures gaps { PassesGaps self.old (S.view from.old) result self.new (S.view from.new) }
        ensures still { IsStillAfterGaps (from.new ≡ from.old) self.old result self.new }
        ensures text { self.new.text ≡ self.old.text }
        ensures faults { CountsFault (is_failed_cut result) (S.view from.old).faults (S.view from.new).faults }
    {
        let mut commented = false;
        'pieces: loop {
            let Some(count) = self.supply(from)? else {
                return Ok(false);
            };
            let part = self.gaps_ahead(count, commented);
            self.pass(part.len);
            if part.len < count {
                return Ok(true);
            }
            commented = part.open;
        }
    }

    /// Goes after the command that begins here, or to the script's end.
    fn pass_text<S: Source>(&mut self, from: &mut S) -> Result<Scanned, CutFault>
        requires empty { self.old.text ≡ [] }
        requires begun { self.old.over ≡ false }
        ensures text { PassesText self.old (S.view from.old) result self.new (S.view from.new) }
        ensures still { (from.new ≡ from.old) ⊎ IsTrue (unbroken false self.old.held) }
        ensures faults { CountsFault (is_failed_cut result) (S.view from.old).faults (S.view from.new).faults }
    {
        let _ = &self.room;
        let mut quoted = false;
        let mut len = 0;
        'pieces: loop {
            let Some(count) = self.supply(from)? else {
                return Ok(Scanned { len, shown: None });
            };
            let part = self.text_ahead(count, quoted);
            len += part.len;
            self.take(part.len, len)?;
            if part.len < count {
                let shown = self.pass_terminator();
                return Ok(Scanned {
                    len,
                    shown: Some(shown),
                });
            }
            quoted = part.open;
        }
    }

    /// How many bytes are held that may be passed: reads once where none is held. None at the script's end.
    fn supply<S: Source>(&mut self, from: &mut S) -> Result<Option<usize>, CutFault>
        requires { self.old.over ≡ false }
        ensures passes { IsSupplied self.old (S.view from.old) self.new (S.view from.new) }
        ensures supplies { Supplies result self.new (S.view from.new) }
        ensures still { IsStill (from.new ≡ from.old) self.old self.new }
        ensures text { self.new.text ≡ self.old.text }
        ensures faults { CountsFault (is_failed_cut result) (S.view from.old).faults (S.view from.new).faults }
    {
        self.refill(from)?;
        let held = self.window.bytes().len();
        if held == 0 {
            self.over = true;
            return Ok(None);
        }
        if self.room == 0 {
            return Err(CutFault::ScriptLimit(self.line));
        }
        Ok(Some(held.min(self.room)))
    }

    /// Reads once where nothing is held, and at most one byte more than may be passed.
    fn refill<S: Source>(&mut self, from: &mut S) -> Result<(), CutFault>
        ensures supplied { IsSupplied self.old (S.view from.old) self.new (S.view from.new) }
        ensures ended { IsRefilled self.old result self.new (S.view from.new) }
        ensures still { IsStill (from.new ≡ from.old) self.old self.new }
        ensures same { self.new ≡ record self.old { held = self.new.held } }
        ensures faults { CountsFault (is_failed_cut result) (S.view from.old).faults (S.view from.new).faults }
    {
        if !self.window.bytes().is_empty() {
            return Ok(());
        }
        let most = (TEXT_LIMIT + 1 - self.text.len()).min(self.room + 1);
        if let Err(Failed) = self.window.fill(from, most) {
            return Err(CutFault::Failed);
        }
        Ok(())
    }

    /// The gaps that the next `count` bytes begin with.
    fn gaps_ahead(&self, count: usize, commented: bool) -> Stretch
        requires { count ≤ length self.now.held }
        ensures len { result.len ≡ gap_count commented (take count self.now.held) }
        ensures open { result.open ≡ gap_open commented (take count self.now.held) }
        ensures within { result.len ≤ count }
    {
        gaps_of(&self.window.bytes()[..count], commented)
    }

    /// The text that the next `count` bytes begin with.
    fn text_ahead(&self, count: usize, quoted: bool) -> Stretch
        requires { count ≤ length self.now.held }
        ensures len { result.len ≡ text_count quoted (take count self.now.held) }
        ensures open { result.open ≡ text_open quoted (take count self.now.held) }
        ensures within { result.len ≤ count }
    {
        text_of(&self.window.bytes()[..count], quoted)
    }

    /// Passes the next bytes.
    fn pass(&mut self, count: usize)
        requires held { count ≤ length self.old.held }
        requires room { count ≤ self.old.room }
        ensures { self.new ≡ advance count self.old }
    {
        self.line += line_ends(&self.window.bytes()[..count]);
        self.room -= count;
        self.window.pass(count);
    }

    /// Passes a terminator, and says whether it is `:`.
    fn pass_terminator(&mut self) -> bool
        requires held { 0 < length self.old.held }
        requires room { 0 < self.old.room }
        ensures shown { result ≡ (slice_index self.old.held 0 == 58) }
        ensures passed { self.new ≡ advance 1 self.old }
    {
        let shown = self.window.bytes()[0] == b':';
        self.pass(1);
        shown
    }

    /// Passes the next bytes, which belong to a command's text of `len` bytes with them. They are kept if
    /// the text is not too long; else nothing of it is.
    fn take(&mut self, count: usize, len: usize) -> Result<(), CutFault>
        requires held { count ≤ length self.old.held }
        requires room { count ≤ self.old.room }
        requires fits { len ≤ 65536 → length self.old.text + count ≤ 65536 }
        ensures passed { OnOk result (self.new ≡ record (advance count self.old) { text = (if nat_le len 65536 then self.old.text ++ take count self.old.held else []) }) }
        ensures memory { OnErr result (self.new ≡ self.old) }
        ensures only { IfErr result (λ fault. fault ≡ Memory) }
    {
        let prefix = &self.window.bytes()[..count];
        keep(&mut self.text, prefix, len)?;
        self.line += line_ends(prefix);
        self.room -= count;
        self.window.pass(count);
        Ok(())
    }
}

/// Puts bytes after a text, which has `len` bytes with them, or forgets it where it is too long.
fn keep(text: &mut Vec<u8>, bytes: &[u8], len: usize) -> Result<(), CutFault>
    ensures kept { OnOk result (text.new.items ≡ (if nat_le len 65536 then text.old.items ++ bytes.now else [])) }
    ensures memory { OnErr result (text.new.items ≡ text.old.items) }
    ensures only { IfErr result (λ fault. fault ≡ Memory) }
{
    if len > TEXT_LIMIT {
        text.clear();
        return Ok(());
    }
    text.extend_from_slice(bytes)?;
    Ok(())
}
