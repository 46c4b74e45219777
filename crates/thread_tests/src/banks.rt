// Numbers of genomes, by one thread and by two.
ghost use Rattle.std.specs.Prelude.{◌≡◌};

use avida_port::Memory;
use genome::{Genome, read_letters};
use genotype_bank::{Bank, Seat};
use std::alloc::Global;
use std::sync::Wait;
use std::test::Fail;
use std::thread;
use std::thread::Threads;

/// The genome of eight times this letter.
fn eight(alloc: Global, letter: u8) -> Result<Genome, Memory> {
    match read_letters(alloc, &[letter; 8]) {
        Ok(genome) => Ok(genome),
        Err(_) => Err(Memory),
    }
}

/// The numbers that the bank gives to these genomes, one after another.
fn numbers<R: Wait>(
    rt: &R,
    alloc: Global,
    bank: &Bank,
    seat: &mut Seat,
    letters: &[u8],
) -> Result<Vec<u64>, Memory>
    requires { seat.old.bank ≡ bank.now }
    ensures { seat.new.bank ≡ seat.old.bank × seat.new.share ≡ seat.old.share }
{
    let mut numbers = Vec::new(alloc);
    for letter in letters {
        let genome = eight(alloc, *letter)?;
        let handle = bank.intern(rt, alloc, seat, genome)?;
        numbers.push(handle.number)?;
    }
    Ok(numbers)
}

#[test]
fn equal_genomes_have_one_number(rt: HostRuntime) -> Result<(), Fail> {
    let alloc = rt.alloc();
    let (bank, mut seat) = Bank::start(alloc)?;
    let found = numbers(&rt, alloc, &bank, &mut seat, b"aba")?;
    assert_eq!(rt; found.as_slice(), [0, 1, 0].as_slice());
    let mut other = bank.split(&mut seat);
    let found = numbers(&rt, alloc, &bank, &mut other, b"b")?;
    assert_eq!(rt; found.as_slice(), [1].as_slice());
    let seat = bank.join(seat, other);
    let genomes = bank.close(alloc, seat)?;
    assert_eq!(rt; genomes.len(), 2);
    assert!(rt; genomes.get(0) == Some(&eight(alloc, b'a')?));
    assert!(rt; genomes.get(1) == Some(&eight(alloc, b'b')?));
    Ok(())
}

#[test]
fn threads_that_intern_in_opposite_orders_agree(rt: HostRuntime) -> Result<(), Fail> {
    let alloc = rt.alloc();
    let (bank, mut seat) = Bank::start(alloc)?;
    let mut other = bank.split(&mut seat);
    let shared = &bank;
    let handle = &rt;
    let (up, down) = thread::join(
        handle,
        move || -> Result<Vec<u64>, Memory>
            requires { seat.bank ≡ shared.now }
        { numbers(handle, alloc, shared, &mut seat, b"abcdefghij") },
        move || -> Result<Vec<u64>, Memory>
            requires { other.bank ≡ shared.now }
        { numbers(handle, alloc, shared, &mut other, b"jihgfedcba") },
    );
    let up = up?;
    let mut down = down?;
    down.reverse();
    assert_eq!(rt; up.as_slice(), down.as_slice());
    let mut sorted = up;
    sorted.sort()?;
    assert_eq!(rt;
        sorted.as_slice(),
        [0, 1, 2, 3, 4, 5, 6, 7, 8, 9].as_slice()
    );
    Ok(())
}
