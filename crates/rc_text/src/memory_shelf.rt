ghost use Rattle.std.specs.Prelude.{◌≡◌, ◌≤◌, ◌<◌, ◌+◌, ◌^◌, ◌↔◌, ◌⊎◌, length, min, Contains, MatchOption, Some};
ghost use Rattle.rc_text.specs.Faults.{faults_after, one_more};
ghost use Rattle.rc_text.specs.Got.{IfCount};
ghost use Rattle.rc_text.specs.LastCall.{after_opening, after_reading};
ghost use Rattle.rc_text.specs.Shelf.{TakesFront};
ghost use Rattle.rc_text.specs.MemoryShelf.{content_of, content_at, bytes_left, left_of, IsOpeningFault};

use crate::answer::{Got, LastCall, Opened};
use crate::bytes::Bytes;
use crate::calls::{LARGEST_PIECE, count_call, record_call};
use crate::shelf::Shelf;
use crate::text::Text;

/// A shelf in memory, for tests. Of two files of one name the first counts. A read gives at most 16
/// bytes. The calls are numbered from 0, all methods together, and those whose numbers stand in
/// `failing` fail, as does the opening of a name that isn't there. It is made by writing its fields,
/// with `current` None, `at` 0 and `last` `Answered`. It doesn't tell the names that it was asked for,
/// since its calls take no memory.
#[derive(Debug, Drop)]
pub struct MemoryShelf {
    pub files: Vec<(Text, Bytes)>,
    pub failing: Vec<u64>,
    /// How many calls there were, at most 2^64 - 1.
    pub calls: u64,
    pub faults: u64,
    /// What the last call came to.
    pub last: LastCall,
    /// Where the opened file stands in `files`.
    pub current: Option<usize>,
    /// How many of its bytes were given.
    pub at: usize,
}

/// Where the first file of a name stands.
fn find_file(files: &[(Text, Bytes)], name: &str) -> Option<usize>
    ensures { MatchOption result (content_of files.now name.now ≡ None)
        (λ index. content_of files.now name.now ≡ Some (content_at files.now index)) }
{
    for (index, file) in files.iter().enumerate() {
        if file.0.as_str() == name {
            return Some(index);
        }
    }
    None
}

impl MemoryShelf {
    /// The bytes of the opened file that are still to be given.
    fn left(&self) -> &[u8]
        ensures left { result.now ≡ bytes_left self.now.files.items self.now.current self.now.at }
        ensures end { 0 < length result.now → self.now.at + length result.now < 2 ^ 64 }
    {
        let Some(index) = self.current else {
            return &[];
        };
        match self.files.get(index) {
            None => &[],
            Some(file) => {
                let content = file.1.as_slice();
                let (_, left) = content.split_at(self.at.min(content.len()));
                left
            }
        }
    }
}

impl Shelf for MemoryShelf {
    ghost use Rattle.std.specs.Prelude.{None};

    ghost holds = { λ shelf. content_of shelf.files.items };

    ghost left = { λ shelf. Some (left_of shelf) };

    ghost asked = { λ _. None };

    ghost last = { λ shelf. shelf.last };

    ghost faults = { λ shelf. shelf.faults };

    fn open_name(&mut self, name: &str) -> Opened
        ensures holds { content_of self.new.files.items ≡ content_of self.old.files.items }
        ensures opened { result ≡ Opened.Opened → Some (left_of self.new) ≡ content_of self.old.files.items name.now }
        ensures failed { result ≡ Opened.Failed → left_of self.new ≡ left_of self.old }
        ensures last { self.new.last ≡ after_opening result }
        ensures faults { self.new.faults ≡ faults_after (after_opening result) self.old.faults }

        // When it fails.
        ensures fails { (result ≡ Opened.Failed) ↔ IsOpeningFault self.old name.now }
        ensures counted { self.new.calls ≡ one_more self.old.calls }
        ensures kept { (self.new.files ≡ self.old.files) × (self.new.failing ≡ self.old.failing) }
    {
        let fails = count_call(&mut self.calls, self.failing.as_slice());
        match find_file(self.files.as_slice(), name) {
            Some(index) if !fails => {
                self.current = Some(index);
                self.at = 0;
                record_call(&mut self.last, &mut self.faults, LastCall::Answered);
                Opened::Opened
            }
            _ => {
                record_call(&mut self.last, &mut self.faults, LastCall::FailedOpening);
                Opened::Failed
            }
        }
    }

    fn read(&mut self, into: &mut [u8]) -> Got
        ensures holds { content_of self.new.files.items ≡ content_of self.old.files.items }
        ensures within { IfCount result (λ count. count ≤ length into.old) }
        ensures front { IfCount result
            (TakesFront (Some (left_of self.old)) (Some (left_of self.new)) (length into.old) into.new) }
        ensures failed { result ≡ Got.Failed → left_of self.new ≡ left_of self.old }
        ensures last { self.new.last ≡ after_reading result }
        ensures faults { self.new.faults ≡ faults_after (after_reading result) self.old.faults }

        // How much it gives, and when it fails.
        ensures count { let room = min (length into.old) LARGEST_PIECE in
            IfCount result (λ count. count ≡ min (length (left_of self.old)) room) }
        ensures fails { (result ≡ Got.Failed) ↔ Contains self.old.failing.items self.old.calls }
        ensures counted { self.new.calls ≡ one_more self.old.calls }
        ensures kept { (self.new.files ≡ self.old.files) × (self.new.failing ≡ self.old.failing) }
    {
        if count_call(&mut self.calls, self.failing.as_slice()) {
            record_call(&mut self.last, &mut self.faults, LastCall::FailedReading);
            return Got::Failed;
        }
        let left = self.left();
        let count = left.len().min(into.len()).min(LARGEST_PIECE);
        into[..count].copy_from_slice(&left[..count]);
        self.at += count;
        record_call(&mut self.last, &mut self.faults, LastCall::Answered);
        Got::Count(count)
    }
}
