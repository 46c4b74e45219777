// The places of memory, in one list.
ghost use Rattle.std.specs.Prelude.{◌≡◌, ◌+◌, ◌-◌, ◌<◌, ◌≤◌, ◌++◌, true, length, map, slice_set, slice_index_or, IfOk, vec_capacity};
ghost use Rattle.virtual_cpu.specs.Prelude.{NopA, letters_of};
ghost use Rattle.virtual_cpu.specs.Replication.{count_of, parent_part, child_part};
ghost use Rattle.virtual_cpu.specs.SiteLists.{clean_of, executed_of, copied_of, letter_by, mark_by, fresh_site, fresh_lists, with_places, with_copy};

use crate::reserved::append_copies;
use avida_port::Memory;
use instruction_set::Letter;
use label_search::{Site, letter_at};
use std::alloc::{AllocError, Global};
use std::marker::Model;

/// The places of a machine's memory. They grow within the room that they were made with, so that no
/// growth takes memory.
#[derive(Drop)]
pub struct Sites {
    items: Vec<Site>,
}

impl Model for Sites {
    ghost use Rattle.std.specs.Prelude.{vec_capacity};
    ghost use Rattle.virtual_cpu.specs.SiteLists.{SiteLists, lists_in};

    ghost Value = { SiteLists };

    ghost view = { λ sites. lists_in sites.items.items (vec_capacity sites.items) };
}

impl Sites {
    /// The sites of a text, with room for more.
    pub(crate) fn fresh(alloc: Global, text: &[Letter], room: usize) -> Result<Sites, Memory>
        requires { length text.now ≤ room }
        ensures { IfOk result (λ sites. sites ≡ fresh_lists text.now room) }
    {
        let mut items = Vec::with_capacity(alloc, room)?;
        append_text(&mut items, text);
        Ok(Sites { items })
    }

    /// The sites with these letters and marks, with room for more.
    pub(crate) fn of_lists(
        alloc: Global,
        letters: &[Letter],
        clean: &[Letter],
        executed: &[bool],
        copied: &[bool],
        room: usize,
    ) -> Result<Sites, Memory>
        requires clean { length clean.now ≡ length letters.now }
        requires executed { length executed.now ≡ length letters.now }
        requires copied { length copied.now ≡ length letters.now }
        requires within { length letters.now ≤ room }
        ensures { IfOk result (λ sites. sites ≡ record {
          letters = letters.now;
          clean = clean.now;
          executed = executed.now;
          copied = copied.now;
          room = room;
        }) }
    {
        let mut items = Vec::with_capacity(alloc, room)?;
        for at in 0..letters.len() {
            items.push_reserved(Site::new(letters[at], clean[at], executed[at], copied[at]));
        }
        Ok(Sites { items })
    }

    #[inline(always)]
    pub(crate) fn len(&self) -> usize
        ensures { result ≡ length self.now.letters }
    {
        self.items.len()
    }

    /// The letter at a place.
    #[inline(always)]
    pub(crate) fn letter(&self, place: usize) -> Letter
        requires { place < length self.now.letters }
        ensures { result ≡ slice_index_or self.now.letters place NopA }
    {
        letter_at(self.items.as_slice(), place)
    }

    /// The sites, to be searched.
    #[inline(always)]
    pub(crate) fn as_slice(&self) -> &[Site]
        ensures letters { letters_of result.now ≡ self.now.letters }
        ensures length { length result.now ≡ length self.now.letters }
    {
        self.items.as_slice()
    }

    #[inline(always)]
    pub(crate) fn mark_executed(&mut self, place: usize)
        requires { place < length self.old.letters }
        ensures { self.new
            ≡ record self.old { executed = slice_set self.old.executed place true } }
    {
        let site = &mut self.items[place];
        site.mark_executed();
    }

    /// Writes a letter as the copy of another.
    #[inline(always)]
    pub(crate) fn copy(&mut self, place: usize, letter: Letter, clean: Letter)
        requires { place < length self.old.letters }
        ensures { self.new ≡ with_copy self.old place letter clean }
    {
        let site = &mut self.items[place];
        site.copy(letter, clean);
    }

    /// Appends places of nop-A, for which there is room.
    pub(crate) fn append(&mut self, count: usize)
        requires { length self.old.letters + count ≤ self.old.room }
        ensures lists { self.new
            ≡ record (with_places self.old count) { room = self.new.room } }
        ensures room { self.old.room ≤ self.new.room }
    {
        append_copies(&mut self.items, fresh_site(Letter::NopA), count);
    }

    /// Keeps the first letters, as a text of its own.
    pub(crate) fn reset(&mut self, keep: usize)
        requires { keep ≤ length self.old.letters }
        ensures { self.new ≡ fresh_lists (parent_part self.old.letters keep) self.old.room }
    {
        self.items.truncate(keep);
        refresh(&mut self.items);
    }

    /// Begins anew on a text, for which there is room.
    pub(crate) fn begin(&mut self, text: &[Letter])
        requires { length text.now ≤ self.old.room }
        ensures { self.new ≡ fresh_lists text.now self.old.room }
    {
        self.items.clear();
        append_text(&mut self.items, text);
    }

    /// How many of the first places were executed.
    pub(crate) fn count_executed(&self, end: usize) -> usize
        requires { end ≤ length self.now.letters }
        ensures count { result ≡ count_of (parent_part self.now.executed end) }
        ensures bound { result ≤ end }
    {
        count_marked(&self.items[..end], false)
    }

    /// The sites from one place up to another.
    #[inline(always)]
    fn part(&self, from: usize, end: usize) -> &[Site]
        requires order { from ≤ end }
        requires within { end ≤ length self.now.letters }
        ensures letters { letters_of result.now ≡ child_part self.now.letters from end }
        ensures clean { clean_of result.now ≡ child_part self.now.clean from end }
        ensures copied { copied_of result.now ≡ child_part self.now.copied from end }
        ensures length { length result.now ≡ end - from }
    {
        &self.items[from..end]
    }

    /// How many places from one up to another were copied to.
    pub(crate) fn count_copied(&self, from: usize, end: usize) -> usize
        requires order { from ≤ end }
        requires within { end ≤ length self.now.letters }
        ensures count { result ≡ count_of (child_part self.now.copied from end) }
        ensures bound { result ≤ end - from }
    {
        count_marked(self.part(from, end), true)
    }

    /// The letters from one place up to another.
    pub(crate) fn letters(
        &self,
        alloc: Global,
        from: usize,
        end: usize,
    ) -> Result<Vec<Letter>, AllocError>
        requires order { from ≤ end }
        requires within { end ≤ length self.now.letters }
        ensures { IfOk result (λ v. v.items ≡ child_part self.now.letters from end) }
    {
        text_in(alloc, self.part(from, end), false)
    }

    /// The clean letters from one place up to another.
    pub(crate) fn clean(
        &self,
        alloc: Global,
        from: usize,
        end: usize,
    ) -> Result<Vec<Letter>, AllocError>
        requires order { from ≤ end }
        requires within { end ≤ length self.now.letters }
        ensures { IfOk result (λ v. v.items ≡ child_part self.now.clean from end) }
    {
        text_in(alloc, self.part(from, end), true)
    }

    pub(crate) fn all_letters(&self, alloc: Global) -> Result<Vec<Letter>, AllocError>
        ensures { IfOk result (λ v. v.items ≡ self.now.letters) }
    {
        text_in(alloc, self.items.as_slice(), false)
    }

    pub(crate) fn all_clean(&self, alloc: Global) -> Result<Vec<Letter>, AllocError>
        ensures { IfOk result (λ v. v.items ≡ self.now.clean) }
    {
        text_in(alloc, self.items.as_slice(), true)
    }

    pub(crate) fn all_executed(&self, alloc: Global) -> Result<Vec<bool>, AllocError>
        ensures { IfOk result (λ v. v.items ≡ self.now.executed) }
    {
        executed_in(alloc, self.items.as_slice())
    }

    pub(crate) fn all_copied(&self, alloc: Global) -> Result<Vec<bool>, AllocError>
        ensures { IfOk result (λ v. v.items ≡ self.now.copied) }
    {
        copied_in(alloc, self.items.as_slice())
    }
}

/// The site of a letter that was neither executed nor copied.
#[inline(always)]
fn fresh_site(letter: Letter) -> Site
    ensures { result ≡ fresh_site letter }
{
    Site::new(letter, letter, false, false)
}

/// Appends a text, for which there is room.
fn append_text(items: &mut Vec<Site>, text: &[Letter])
    requires { length items.old.items + length text.now ≤ vec_capacity items.old }
    ensures items { items.new.items ≡ items.old.items ++ map fresh_site text.now }
    ensures capacity { vec_capacity items.new ≡ vec_capacity items.old }
{
    for letter in text {
        items.push_reserved(fresh_site(*letter));
    }
}

/// Makes each site that of its letter.
fn refresh(items: &mut Vec<Site>)
    ensures items { items.new.items ≡ map (λ site. fresh_site site.letter) items.old.items }
    ensures capacity { vec_capacity items.new ≡ vec_capacity items.old }
{
    for at in 0..items.len() {
        items[at] = fresh_site(items[at].letter());
    }
}

// A loop, since the compiler makes it count several sites at once, and a filter's count it doesn't.
#[inline(always)]
fn count_marked(sites: &[Site], copied: bool) -> usize
    ensures count { result ≡ count_of (map (mark_by copied) sites.now) }
    ensures bound { result ≤ length sites.now }
{
    let mut count = 0;
    for site in sites {
        if (if copied {
            site.copied()
        } else {
            site.executed()
        }) {
            count += 1;
        }
    }
    count
}

/// What the sites hold, or what was copied to them.
#[inline(always)]
fn text_in(alloc: Global, sites: &[Site], clean: bool) -> Result<Vec<Letter>, AllocError>
    ensures { IfOk result (λ v. v.items ≡ map (letter_by clean) sites.now) }
{
    let mut letters = Vec::with_capacity(alloc, sites.len())?;
    for site in sites {
        letters.push_reserved(if clean { site.clean() } else { site.letter() });
    }
    Ok(letters)
}

fn executed_in(alloc: Global, sites: &[Site]) -> Result<Vec<bool>, AllocError>
    ensures { IfOk result (λ v. v.items ≡ executed_of sites.now) }
{
    sites.iter().map(|site| site.executed()).collect(alloc)
}

fn copied_in(alloc: Global, sites: &[Site]) -> Result<Vec<bool>, AllocError>
    ensures { IfOk result (λ v. v.items ≡ copied_of sites.now) }
{
    sites.iter().map(|site| site.copied()).collect(alloc)
}
