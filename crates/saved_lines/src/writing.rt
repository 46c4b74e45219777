// Writes the lines of a saved world, each into the bytes that it is given.
ghost use Rattle.std.specs.Prelude.{◌≡◌, ◌∷◌, ◌++◌, [], map, take, Ok, OnOk, OnErr};
ghost use Rattle.saved_lines.specs.Prelude.{signed_decimal, byte_of, Keeps, words_text};
ghost use Rattle.saved_lines.specs.SavedText.{Count, Head, Machine, count_text, digit_of, flag_number, head_numbers, machine_numbers, nops_text, organism_numbers, organism_text, resident_text, saved_head_text, saved_row_text, signed_words};
ghost use Rattle.saved_lines.specs.SavedValues.{head_values, organism_values};

use crate::resident::Resident;
use crate::state_head::StateHead;
use avida_port::Memory;
use instruction_set::Letter;
use label_search::Template;
use log_lines::{write_byte, write_number, write_numbers};
use virtual_cpu::CpuImage;

/// 1 for true, and 0 for false.
fn flag_number(is_set: bool) -> u64
    ensures { result ≡ flag_number is_set }
{
    if is_set { 1 } else { 0 }
}

/// A signed number, behind a space.
#[tactic(auto, using(crate::proofs::TextLemmas::fronts_stay))]
fn integer(out: &mut Vec<u8>, number: i32) -> Result<(), Memory>
    ensures ok { OnOk result (out.new.items ≡ out.old.items ++ 32 ∷ signed_decimal number) }
    ensures err { OnErr result (Keeps out.old.items out.new.items) }
{
    write_byte(b' ', out)?;
    let mut digits = itoa::Buffer::new();
    match out.extend_from_slice(digits.format(number).as_bytes()) {
        Ok(()) => Ok(()),
        Err(_) => Err(Memory),
    }
}

/// Signed numbers, each behind a space.
#[tactic(auto, using(crate::proofs::TextLemmas::words_grow))]
fn integers(out: &mut Vec<u8>, numbers: &[i32]) -> Result<(), Memory>
    ensures ok { OnOk result (out.new.items
        ≡ out.old.items ++ words_text (signed_words numbers.now)) }
    ensures err { OnErr result (Keeps out.old.items out.new.items) }
{
    for number in numbers {
        integer(out, *number)?;
    }
    Ok(())
}

/// The bytes of letters.
fn spelled(out: &mut Vec<u8>, letters: &[Letter]) -> Result<(), Memory>
    ensures ok { OnOk result (out.new.items ≡ out.old.items ++ map byte_of letters.now) }
    ensures err { OnErr result (out.new.items ≡ out.old.items) }
{
    out.reserve(letters.len())?;
    for letter in letters {
        out.push_reserved(letter.byte());
    }
    Ok(())
}

/// Letters, behind a space.
fn text(out: &mut Vec<u8>, letters: &[Letter]) -> Result<(), Memory>
    ensures ok { OnOk result (out.new.items ≡ out.old.items ++ 32 ∷ map byte_of letters.now) }
    ensures err { OnErr result (Keeps out.old.items out.new.items) }
{
    write_byte(b' ', out)?;
    spelled(out, letters)
}

/// The digit of a place.
fn digit(is_marked: bool) -> u8
    ensures { result ≡ digit_of is_marked }
{
    if is_marked { b'1' } else { b'0' }
}

/// A digit for each place.
fn digits(out: &mut Vec<u8>, places: &[bool]) -> Result<(), Memory>
    ensures ok { OnOk result (out.new.items ≡ out.old.items ++ map digit_of places.now) }
    ensures err { OnErr result (out.new.items ≡ out.old.items) }
{
    out.reserve(places.len())?;
    for place in places {
        out.push_reserved(digit(*place));
    }
    Ok(())
}

/// A digit for each place, behind a space.
fn places(out: &mut Vec<u8>, places: &[bool]) -> Result<(), Memory>
    ensures ok { OnOk result (out.new.items ≡ out.old.items ++ 32 ∷ map digit_of places.now) }
    ensures err { OnErr result (Keeps out.old.items out.new.items) }
{
    write_byte(b' ', out)?;
    digits(out, places)
}

/// The bytes of nops.
fn nop_letters(out: &mut Vec<u8>, nops: &Template) -> Result<(), Memory>
    ensures ok { OnOk result (out.new.items ≡ out.old.items ++ map byte_of nops.now) }
    ensures err { OnErr result (Keeps out.old.items out.new.items) }
{
    for at in 0..nops.len() {
        if let Some(nop) = nops.get(at) {
            write_byte(nop.byte(), out)?;
        }
    }
    Ok(())
}

/// Nops or a dash for none, behind a space.
#[tactic(auto, using(crate::proofs::TextLemmas::nops_spell))]
fn template(out: &mut Vec<u8>, nops: &Template) -> Result<(), Memory>
    ensures ok { OnOk result (out.new.items ≡ out.old.items ++ 32 ∷ nops_text nops.now) }
    ensures err { OnErr result (Keeps out.old.items out.new.items) }
{
    write_byte(b' ', out)?;
    if nops.len() == 0 {
        return write_byte(b'-', out);
    }
    nop_letters(out, nops)
}

/// The numbers of the first line.
fn head_numbers(head: &StateHead) -> [u64; 22]
    ensures { result ≡ head_numbers (head_values head.now) }
{
    [
        1,
        u64::from(head.width),
        u64::from(head.height),
        u64::from(head.update),
        head.next_id,
        head.seed,
        u64::from(head.average_slices),
        flag_number(head.death),
        u64::from(head.age_limit),
        u64::from(head.rates.copy),
        u64::from(head.rates.insert),
        u64::from(head.rates.delete),
        u64::from(head.rates.site_point),
        u64::from(head.rates.site_insert),
        u64::from(head.rates.site_delete),
        flag_number(head.prefer_empty),
        flag_number(head.need_alloc),
        u64::from(head.executed_percent),
        u64::from(head.copied_percent),
        u64::from(head.least_length),
        u64::from(head.greatest_length),
        u64::from(head.memory_limit),
    ]
}

/// The numbers of an organism's line.
fn organism_numbers(resident: &Resident) -> [u64; 10]
    ensures { result ≡ organism_numbers (organism_values resident.now) }
{
    let image = &resident.image;
    let inputs = image.inputs.low();
    [
        u64::from(resident.cell),
        resident.id,
        image.merit,
        u64::from(image.credited.number()),
        image.age,
        image.read,
        u64::from(image.gestation.number()),
        u64::from(inputs[0]),
        u64::from(inputs[1]),
        u64::from(inputs[2]),
    ]
}

/// The numbers of a machine's line.
fn machine_numbers(image: &CpuImage) -> [u64; 6]
    ensures { result ≡ machine_numbers image.now }
{
    [
        u64::from(image.active),
        u64::from(image.heads[0]),
        u64::from(image.heads[1]),
        u64::from(image.heads[2]),
        u64::from(image.heads[3]),
        flag_number(image.pending),
    ]
}

/// The line of a head, without its newline.
#[tactic(auto, using(crate::proofs::TextLemmas::fronts_stay))]
fn head(head: &StateHead, out: &mut Vec<u8>) -> Result<(), Memory>
    ensures ok { OnOk result (out.new.items
        ≡ out.old.items ++ saved_row_text (Head (head_values head.now))) }
    ensures err { OnErr result (Keeps out.old.items out.new.items) }
{
    write_byte(b'S', out)?;
    write_numbers(&head_numbers(head), out)
}

/// The line of an organism.
#[tactic(auto, using(crate::proofs::TextLemmas::fronts_stay))]
fn organism(resident: &Resident, out: &mut Vec<u8>) -> Result<(), Memory>
    ensures ok { OnOk result (out.new.items
        ≡ out.old.items ++ organism_text (organism_values resident.now)) }
    ensures err { OnErr result (Keeps out.old.items out.new.items) }
{
    write_byte(b'O', out)?;
    write_numbers(&organism_numbers(resident), out)?;
    text(out, resident.image.genome.letters())?;
    write_byte(b'\n', out)
}

/// The four texts of a machine's line.
#[tactic(auto, using(crate::proofs::TextLemmas::fronts_stay))]
fn texts(image: &CpuImage, out: &mut Vec<u8>) -> Result<(), Memory>
    ensures ok { OnOk result (out.new.items
        ≡ out.old.items ++ words_text (map byte_of image.now.memory ∷ map byte_of image.now.clean
        ∷ map digit_of image.now.executed ∷ map digit_of image.now.copied ∷ [])) }
    ensures err { OnErr result (Keeps out.old.items out.new.items) }
{
    text(out, image.memory.as_slice())?;
    text(out, image.clean.as_slice())?;
    places(out, image.executed.as_slice())?;
    places(out, image.copied.as_slice())
}

/// The nops read last and the stacks of a machine's line.
#[tactic(auto, using(crate::proofs::TextLemmas::fronts_stay))]
fn nops_and_stacks(image: &CpuImage, out: &mut Vec<u8>) -> Result<(), Memory>
    ensures ok { OnOk result (out.new.items
        ≡ out.old.items ++ words_text (nops_text image.now.nops
        ∷ signed_words image.now.first ++ signed_words image.now.second)) }
    ensures err { OnErr result (Keeps out.old.items out.new.items) }
{
    template(out, &image.nops)?;
    integers(out, &image.first)?;
    integers(out, &image.second)
}

/// The line of a machine, without its newline.
#[tactic(auto, using(crate::proofs::TextLemmas::fronts_stay))]
fn machine(image: &CpuImage, out: &mut Vec<u8>) -> Result<(), Memory>
    ensures ok { OnOk result (out.new.items
        ≡ out.old.items ++ saved_row_text (Machine image.now)) }
    ensures err { OnErr result (Keeps out.old.items out.new.items) }
{
    write_byte(b'M', out)?;
    integers(out, &image.registers)?;
    write_numbers(&machine_numbers(image), out)?;
    nops_and_stacks(image, out)?;
    texts(image, out)
}

/// The two lines of an organism, without the newline of the second.
#[tactic(auto, using(crate::proofs::TextLemmas::fronts_stay))]
fn resident(resident: &Resident, out: &mut Vec<u8>) -> Result<(), Memory>
    ensures ok { OnOk result (out.new.items
        ≡ out.old.items ++ (organism_text (organism_values resident.now)
        ++ saved_row_text (Machine resident.now.image.cpu))) }
    ensures err { OnErr result (Keeps out.old.items out.new.items) }
{
    organism(resident, out)?;
    machine(&resident.image.cpu, out)
}

/// The last line, without its newline.
#[tactic(auto, using(crate::proofs::TextLemmas::fronts_stay))]
fn count(organisms: u64, out: &mut Vec<u8>) -> Result<(), Memory>
    ensures ok { OnOk result (out.new.items
        ≡ out.old.items ++ saved_row_text (Count organisms)) }
    ensures err { OnErr result (Keeps out.old.items out.new.items) }
{
    write_byte(b'Z', out)?;
    write_number(b' ', organisms, out)
}

/// Ends a line that begins at this place, or takes back what was written of it.
fn finish(line: Result<(), Memory>, start: usize, out: &mut Vec<u8>) -> Result<(), Memory>
    ensures line { OnOk result (line ≡ Ok tt) }
    ensures ok { OnOk result (out.new.items ≡ out.old.items ++ 10 ∷ []) }
    ensures err { OnErr result (out.new.items ≡ take start out.old.items) }
{
    if line.is_ok() && write_byte(b'\n', out).is_ok() {
        return Ok(());
    }
    out.truncate(start);
    Err(Memory)
}

/// Appends the first line of a saved world. When memory runs out `out` stays as it was.
#[tactic(auto, unfolding(crate::specs::SavedText::saved_head_text))]
pub fn write_head(state: &StateHead, out: &mut Vec<u8>) -> Result<(), Memory>
    ensures ok { OnOk result (out.new.items
        ≡ out.old.items ++ saved_head_text (head_values state.now)) }
    ensures err { OnErr result (out.new.items ≡ out.old.items) }
{
    let start = out.len();
    let line = head(state, out);
    finish(line, start, out)
}

/// Appends the two lines of an organism. When memory runs out `out` stays as it was.
#[tactic(auto, unfolding(crate::specs::SavedText::machine_text))]
pub fn write_resident(who: &Resident, out: &mut Vec<u8>) -> Result<(), Memory>
    ensures ok { OnOk result (out.new.items
        ≡ out.old.items ++ resident_text (organism_values who.now) who.now.image.cpu) }
    ensures err { OnErr result (out.new.items ≡ out.old.items) }
{
    let start = out.len();
    let lines = resident(who, out);
    finish(lines, start, out)
}

/// Appends the last line of a saved world, with the number of its organisms. When memory runs out
/// `out` stays as it was.
#[tactic(auto, unfolding(crate::specs::SavedText::count_text))]
pub fn write_count(organisms: u64, out: &mut Vec<u8>) -> Result<(), Memory>
    ensures ok { OnOk result (out.new.items ≡ out.old.items ++ count_text organisms) }
    ensures err { OnErr result (out.new.items ≡ out.old.items) }
{
    let start = out.len();
    let line = count(organisms, out);
    finish(line, start, out)
}
