// Reads a line off the front of a text, a birth's without looking for its end first.
ghost use Rattle.std.specs.Prelude.{◌≡◌, ◌++◌, ◌∷◌, ◌≤◌, [], IfOk, IfSome, decimal, length, true};
ghost use Rattle.log_lines.specs.Prelude.{byte_of, written_in, AllByRecursion, FitsChange, HasGenomeLength, IsSmall, in_order};
ghost use Rattle.log_lines.specs.LineReading.{IsFront, StartsWith};
ghost use Rattle.log_lines.specs.Line.{base_word, birth_values, change_text, changes_word, decimals, over_word};
ghost use Rattle.log_lines.specs.LineText.{spaced_word, words_text, IsLarge};

use crate::birth::Birth;
use crate::fields::{self, is_in_order, no_changes};
use crate::words::split_at;
use avida_port::Memory;
use instruction_set::Letter;
use mutations::{Base, Change, Changes};
use numerals::leading_number;
use std::alloc::Global;
use std::mem;

/// What stands in front of the text of lines.
#[derive(Clone, Copy)]
pub enum Front<'a> {
    /// The line of a birth, which was read, and what follows its newline.
    Birth(&'a [u8]),
    /// A text that was not read, and what follows its newline.
    Text(&'a [u8], &'a [u8]),
    /// There is no newline.
    NoNewline,
}

/// What follows the byte in front, where it is this one.
#[inline(always)]
fn behind(front: u8, text: &[u8]) -> Option<&[u8]>
    ensures { IfSome result (λ behind. text.now ≡ front ∷ behind.now) }
{
    match text {
        [byte, behind @ ..] => { if *byte == front { Some(behind) } else { None } }
        [] => None,
    }
}

/// A place in a genome, and what follows its digits.
#[inline(always)]
fn place_front(text: &[u8]) -> Option<(u32, &[u8])>
    ensures { IfSome result (λ p. text.now ≡ decimal p.0 ++ p.1.now) }
{
    let (value, len) = leading_number(0, u64::from(u32::MAX), text)?;
    Some((value as u32, &text[len..]))
}

/// A space, a number below 2 ^ 32, and what follows its digits.
#[inline(always)]
fn small_front(text: &[u8]) -> Option<(u32, &[u8])>
    ensures { IfSome result (λ p. text.now ≡ spaced_word (decimal p.0) ++ p.1.now) }
{
    place_front(behind(b' ', text)?)
}

/// A space, a number below 2 ^ 64, and what follows its digits.
#[inline(always)]
fn large_front(text: &[u8]) -> Option<(u64, &[u8])>
    ensures { IfSome result (λ p. text.now ≡ spaced_word (decimal p.0) ++ p.1.now) }
{
    let digits = behind(b' ', text)?;
    let (value, len) = leading_number(0, u64::MAX, digits)?;
    Some((value, &digits[len..]))
}

/// Who stood in a cell, behind a space, and what follows.
#[inline(always)]
fn over_front(text: &[u8]) -> Option<(Option<u64>, &[u8])>
    ensures { IfSome result (λ p. text.now ≡ spaced_word (over_word p.0) ++ p.1.now) }
{
    match text {
        [b' ', b'-', behind @ ..] => Some((None, behind)),
        _ => {
            let (id, behind) = large_front(text)?;
            Some((Some(id), behind))
        }
    }
}

/// Reads the fields of a birth before its record, each behind a space, into `birth`, and gives what
/// follows.
fn numbers_front<'a>(birth: &mut Birth, text: &'a [u8]) -> Option<&'a [u8]>
    ensures text { IfSome result (λ behind. text.now
        ≡ words_text (decimals (birth.new.id ∷ birth.new.parent ∷ birth.new.update
        ∷ birth.new.cell ∷ []) ++ over_word birth.new.over ∷ []) ++ behind.now) }
    ensures form { IfSome result (λ behind. IsLarge birth.new.id × IsLarge birth.new.parent
        × IsSmall birth.new.update × IsSmall birth.new.cell × IfSome birth.new.over IsLarge) }
{
    let (id, rest) = large_front(text)?;
    birth.id = id;
    let (parent, rest) = large_front(rest)?;
    birth.parent = parent;
    let (update, rest) = small_front(rest)?;
    birth.update = update;
    let (cell, rest) = small_front(rest)?;
    birth.cell = cell;
    let (over, rest) = over_front(rest)?;
    birth.over = over;
    Some(rest)
}

/// Reads the letters of a written base into `base`, and gives what follows the space behind them.
fn written_front<'a>(
    alloc: Global,
    base: &mut Base,
    text: &'a [u8],
) -> Result<Option<&'a [u8]>, Memory>
    ensures text { IfOk result (λ found. IfSome found (λ behind. text.now
        ≡ base_word (written_in base.new) ++ spaced_word behind.now)) }
    ensures form { IfOk result (λ found.
        IfSome found (λ behind. IfSome (written_in base.new) HasGenomeLength)) }
{
    let (word, others) = split_at(text, b' ');
    let Some(behind) = others else {
        return Ok(None);
    };
    match fields::base(alloc, word)? {
        Some(written) => {
            *base = written;
            Ok(Some(behind))
        }
        None => Ok(None),
    }
}

/// Reads a space and the base of a birth into `base`, and gives what follows the space behind it.
fn base_front<'a>(
    alloc: Global,
    base: &mut Base,
    text: &'a [u8],
) -> Result<Option<&'a [u8]>, Memory>
    ensures text { IfOk result (λ found. IfSome found (λ behind. text.now
        ≡ spaced_word (base_word (written_in base.new)) ++ spaced_word behind.now)) }
    ensures form { IfOk result (λ found.
        IfSome found (λ behind. IfSome (written_in base.new) HasGenomeLength)) }
{
    match text {
        [b' ', b'=', b' ', behind @ ..] => {
            *base = Base::Parent;
            Ok(Some(behind))
        }
        [b' ', letters @ ..] => written_front(alloc, base, letters),
        _ => Ok(None),
    }
}

/// A letter, and what follows it.
fn letter_front(text: &[u8]) -> Option<(Letter, &[u8])>
    ensures { IfSome result (λ p. text.now ≡ byte_of p.0 ∷ p.1.now) }
{
    match text {
        [byte, behind @ ..] => {
            let letter = Letter::from_byte(*byte)?;
            Some((letter, behind))
        }
        [] => None,
    }
}

/// A change with this mark, such as `p`, from behind it, and what follows.
fn change_behind(mark: u8, text: &[u8]) -> Option<(Change, &[u8])>
    ensures text { IfSome result (λ p. mark ∷ text.now ≡ change_text p.0 ++ p.1.now) }
    ensures form { IfSome result (λ p. FitsChange p.0) }
    ensures shorter { IfSome result (λ p. length p.1.now ≤ length text.now) }
{
    let (at, behind) = place_front(text)?;
    match mark {
        b'p' => {
            let (letter, left) = letter_front(behind)?;
            Some((Change::Point { at, letter }, left))
        }
        b'i' => {
            let (letter, left) = letter_front(behind)?;
            Some((Change::Insert { at, letter }, left))
        }
        b'd' => Some((Change::Delete { at }, behind)),
        _ => None,
    }
}

/// Changes in any order, up to the end of the line, and what follows its newline.
fn list_front<'a>(
    spare: Vec<Change>,
    text: &'a [u8],
) -> Result<Option<(Vec<Change>, &'a [u8])>, Memory>
    ensures text { IfOk result (λ found. IfSome found (λ p. text.now
        ≡ changes_word p.0.items ++ 10 ∷ p.1.now)) }
    ensures form { IfOk result (λ found.
        IfSome found (λ p. AllByRecursion FitsChange p.0.items)) }
{
    let mut found = spare;
    found.clear();
    let mut left = text;
    while let [mark, rest @ ..] = left {
        let Some((one, others)) = change_behind(*mark, rest) else {
            return Ok(None);
        };
        found.push(one)?;
        let Some(further) = behind(b',', others) else {
            let Some(further) = behind(b'\n', others) else {
                return Ok(None);
            };
            return Ok(Some((found, further)));
        };
        left = further;
    }
    Ok(None)
}

/// The changes of a birth, up to the end of the line, and what follows its newline.
fn changes_front<'a>(
    spare: Vec<Change>,
    text: &'a [u8],
) -> Result<Option<(Changes, &'a [u8])>, Memory>
    ensures text { IfOk result (λ found. IfSome found (λ p. text.now
        ≡ changes_word p.0 ++ 10 ∷ p.1.now)) }
    ensures form { IfOk result (λ found. IfSome found (λ p. AllByRecursion FitsChange p.0)) }
    ensures order { IfOk result (λ found. IfSome found (λ p. in_order p.0 ≡ true)) }
{
    if let [b'-', b'\n', behind @ ..] = text {
        return Ok(Some((no_changes(spare), behind)));
    }
    match list_front(spare, text)? {
        Some((found, behind)) => {
            if is_in_order(&found) {
                Ok(Some((Changes::from_vec(found), behind)))
            } else {
                Ok(None)
            }
        }
        None => Ok(None),
    }
}

/// Reads a birth's line, with its newline, off the front of the text into `birth`, in place of what
/// it holds, and gives what follows. It may give None also where such a line is in front. Then, and
/// after an error, `birth` may hold anything.
fn birth_front<'a>(
    alloc: Global,
    birth: &mut Birth,
    text: &'a [u8],
) -> Result<Option<&'a [u8]>, Memory>
    ensures { IfOk result (λ found. IfSome found (λ behind.
        StartsWith text.now (birth_values birth.new) behind.now)) }
{
    let [b'B', fields @ ..] = text else {
        return Ok(None);
    };
    let Some(rest) = numbers_front(birth, fields) else {
        return Ok(None);
    };
    let Some(rest) = base_front(alloc, &mut birth.origin.base, rest)? else {
        return Ok(None);
    };
    let spare = mem::replace(&mut birth.origin.changes, Changes::none(alloc));
    let Some((changes, behind)) = changes_front(spare.into_vec(), rest)? else {
        return Ok(None);
    };
    birth.origin.changes = changes;
    Ok(Some(behind))
}

/// What stands before the first newline of the text. The line of a birth may be read into `birth`, in
/// place of what that holds, or be given as its text; else, and after an error, `birth` may hold
/// anything.
#[inline(always)]
pub fn read_front<'a>(alloc: Global, birth: &mut Birth, text: &'a [u8]) -> Result<Front<'a>, Memory>
    ensures { IfOk result (λ front. IsFront text.now birth.new front) }
{
    if let Some(behind) = birth_front(alloc, birth, text)? {
        return Ok(Front::Birth(behind));
    }
    match split_at(text, b'\n') {
        (piece, Some(behind)) => Ok(Front::Text(piece, behind)),
        (_, None) => Ok(Front::NoNewline),
    }
}
