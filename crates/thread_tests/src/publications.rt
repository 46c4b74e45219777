// Pictures, and observers that look at them.
ghost use Rattle.std.specs.Prelude.{◌≡◌, ◌+◌, ◌<◌, IfOk, OnErr, OnOk, Some};
ghost use Rattle.published_world.specs.PublicationHistory.{last_of};

use avida_port::Memory;
use published_world::{Note, Observer, Picture, Publisher, publication};
use std::alloc::Global;
use std::sync::{Arc, Wait};
use std::test::Fail;

/// A picture of nothing but its number.
#[derive(Drop)]
struct Numbered {
    number: u64,
}

impl Picture for Numbered {
    type Of = ();

    ghost of = { λ _. tt };

    ghost number = { λ picture. picture.number };

    fn number(&self) -> u64 {
        self.number
    }
}

fn picture(alloc: Global, number: u64) -> Result<Arc<Numbered>, Memory>
    ensures { IfOk result (λ picture. picture.value ≡ record { number = number }) }
{
    Ok(Arc::new(alloc, Numbered { number })?)
}

fn publish<R: Wait>(
    rt: &R,
    alloc: Global,
    publisher: &mut Publisher<Numbered>,
    number: u64,
) -> Result<Note<Numbered>, Memory>
    requires { (last : Numbered) → last_of publisher.old ≡ Some last → number ≡ last.number + 1 }
    ensures ok { OnOk result (last_of publisher.new ≡ Some (record { number = number })) }
    ensures err { OnErr result (publisher.new ≡ publisher.old) }
{
    let next = picture(alloc, number)?;
    publisher.publish(rt, next)
}

#[test]
fn a_look_reads_what_was_published_last(rt: HostRuntime) -> Result<(), Fail> {
    let alloc = rt.alloc();
    let (mut publisher, mut observers) = publication(&rt, alloc, picture(alloc, 0)?, 1)?;
    let seen = look_around_a_note(&rt, alloc, &mut publisher, observers.pop());
    publisher.end(&rt);
    assert_eq!(rt; seen?, (0, 1, 2));
    Ok(())
}

/// What an observer sees at first, after a picture that it didn't hear of, and after one that it
/// heard of.
fn look_around_a_note<R: Wait>(
    rt: &R,
    alloc: Global,
    publisher: &mut Publisher<Numbered>,
    observer: Option<Observer<Numbered>>,
) -> Result<(u64, u64, u64), Memory>
    requires { last_of publisher.old ≡ Some (record { number = 0 }) }
{
    let Some(mut observer) = observer else {
        return Err(Memory);
    };
    let before = observer.look()?.number();
    drop(publish(rt, alloc, publisher, 1)?);
    let unheard = observer.look()?.number();
    let note = publish(rt, alloc, publisher, 2)?;
    observer.hear(note);
    let heard = observer.look()?.number();
    Ok((before, unheard, heard))
}

#[test]
fn sixty_four_notes_are_held_and_a_refusal_changes_nothing(rt: HostRuntime) -> Result<(), Fail> {
    let alloc = rt.alloc();
    let (mut publisher, mut observers) = publication(&rt, alloc, picture(alloc, 0)?, 64)?;
    let held = hold_notes(&rt, alloc, &mut publisher);
    publisher.end(&rt);
    assert_eq!(rt; held?, (64, true, true));
    assert_eq!(rt; observers.len(), 64);
    let last = observers.pop().ok_or("no observer")?.look()?.number();
    assert_eq!(rt; last, 0);
    Ok(())
}

/// How many notes were held, whether one more was refused, and whether it was published once they
/// were dropped.
fn hold_notes<R: Wait>(
    rt: &R,
    alloc: Global,
    publisher: &mut Publisher<Numbered>,
) -> Result<(usize, bool, bool), Memory>
    requires { last_of publisher.old ≡ Some (record { number = 0 }) }
{
    let mut notes = Vec::new(alloc);
    for held in 0..64u64 {
        notes.push(publish(rt, alloc, publisher, held + 1)?)?;
    }
    let held = notes.len();
    let refused = publish(rt, alloc, publisher, 65).is_err();
    if !refused {
        return Ok((held, false, false));
    }
    drop(notes);
    Ok((held, true, publish(rt, alloc, publisher, 65).is_ok()))
}
