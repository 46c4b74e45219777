// Who publishes.
ghost use Rattle.std.specs.Prelude.{◌≡◌, ◌≤◌, [], ◌∷◌, ◌++◌, IfOk, OnErr, OnOk, replicate};
ghost use Rattle.published_world.specs.PublicationHistory.{IsPublication, MayFollow};

use crate::history::History;
use crate::note::Note;
use crate::observer::Observer;
use crate::picture::Picture;
use crate::reading::PictureReader;
use crate::shown::Shown;
use crate::sight::Sight;
use avida_port::Memory;
use left_right::Absorb;
use std::alloc::Global;
use std::marker::Model;
use std::mem::replace;
use std::sync::{Arc, Wait};

/// It publishes. Contracts see it as the history that was published, which its type keeps a
/// publication. It is not `Drop`: end it by `end`.
pub struct Publisher<P: Picture>
where
    Shown<P>: Absorb<Shown<P>, State = (u64, P)>,
{
    // It is there between any two calls.
    history: Option<History<P>>,
}

impl<P: Picture> Model for Publisher<P>
where
    Shown<P>: Absorb<Shown<P>, State = (u64, P)>,
{
    ghost use Rattle.std.specs.Prelude.{List, [], IsSome, unwrap_or};
    ghost use Rattle.published_world.specs.PublicationHistory.{IsPublication};

    ghost Value = { List P };

    ghost view = { λ p. unwrap_or p.history [] };

    ghost invariant = { λ p. IsSome p.history
        × IsPublication P.number P.of (unwrap_or p.history []) };
}

impl<P: Picture> Publisher<P> {
    /// Appends a picture, and gives a note of it. It may wait for readers. If memory runs out,
    /// nothing was published; it does so too while 64 notes are held.
    pub fn publish<R: Wait>(&mut self, rt: &R, next: Arc<P>) -> Result<Note<P>, Memory>
        requires { MayFollow P.number P.of self.old next.value }
        ensures ok { IfOk result (λ _. self.new ≡ self.old ++ next.value ∷ []) }
        ensures note { IfOk result (λ note. note ≡ self.new) }
        ensures err { OnErr result (self.new ≡ self.old) }
        ensures publication { IsPublication P.number P.of self.new }
    {
        let Some(history) = self.history.take() else {
            unreachable!()
        };
        let (history, note) = append(rt, history, next);
        match replace(&mut self.history, Some(history)) {
            None => note,
            Some(_) => unreachable!(),
        }
    }

    /// Nothing more is published; each observer keeps the picture that it holds. It may wait for
    /// readers, and takes no memory.
    pub fn end<R: Wait>(self, rt: &R) {
        let Publisher { history } = self;
        if let Some(history) = history {
            history.end(rt);
        }
    }
}

/// What a note of a picture takes: the picture itself, and a reader that gives up its place for it.
fn place_for<P: Picture>(
    history: &History<P>,
    picture: &Arc<P>,
) -> Result<(PictureReader<P>, Arc<P>), Memory>
    ensures { IfOk result (λ made. made.1.value ≡ picture.now.value) }
{
    let room = history.room()?;
    Ok((room, Arc::try_clone(picture)?))
}

/// Appends a picture whose note has a place, and gives the note.
fn append_noted<P: Picture, R: Wait>(
    rt: &R,
    history: History<P>,
    next: Arc<P>,
    last: Arc<P>,
    room: PictureReader<P>,
) -> (History<P>, Result<Note<P>, Memory>)
    requires may { MayFollow P.number P.of history next.value }
    requires last { last.value ≡ next.value }
    ensures ok { IfOk result.1 (λ _. result.0 ≡ history ++ next.value ∷ []) }
    ensures note { IfOk result.1 (λ note. note ≡ result.0) }
    ensures err { OnErr result.1 (result.0 ≡ history) }
    ensures publication { IsPublication P.number P.of result.0 }
{
    let (mut history, appended) = history.append(rt, next);
    if appended.is_err() {
        return (history, Err(Memory));
    }
    let sight = history.sight(rt, last, room);
    (history, Ok(Note { sight }))
}

/// Appends a picture, and gives a note of it.
fn append<P: Picture, R: Wait>(
    rt: &R,
    history: History<P>,
    next: Arc<P>,
) -> (History<P>, Result<Note<P>, Memory>)
    requires { MayFollow P.number P.of history next.value }
    ensures ok { IfOk result.1 (λ _. result.0 ≡ history ++ next.value ∷ []) }
    ensures note { IfOk result.1 (λ note. note ≡ result.0) }
    ensures err { OnErr result.1 (result.0 ≡ history) }
    ensures publication { IsPublication P.number P.of result.0 }
{
    match place_for(&history, &next) {
        Ok((room, last)) => append_noted(rt, history, next, last, room),
        Err(stop) => (history, Err(stop)),
    }
}

// How many notes may be held at a time, beside the observers.
const NOTES: usize = 64;

/// A history of one picture, with its publisher and its observers. It may wait for readers.
pub fn publication<P: Picture + Send + Sync, R: Wait>(
    rt: &R,
    alloc: Global,
    first: Arc<P>,
    readers: u32,
) -> Result<(Publisher<P>, Vec<Observer<P>>), Memory>
    requires { (1 ≤ readers) × (readers ≤ 64) }
    ensures publisher { IfOk result (λ made. made.0 ≡ first.value ∷ []) }
    ensures observers { IfOk result
        (λ made. made.1.items ≡ replicate readers (first.value ∷ [])) }
{
    let mut history = begin(rt, alloc, &first, readers)?;
    match observers(alloc, &mut history, &first, readers) {
        Ok(observers) => {
            let publisher = Publisher {
                history: Some(history),
            };
            Ok((publisher, observers))
        }
        Err(stop) => {
            history.end(rt);
            Err(stop)
        }
    }
}

/// A history of one picture, with room for so many observers and for notes. It may wait for
/// readers.
fn begin<P: Picture, R: Wait>(
    rt: &R,
    alloc: Global,
    first: &Arc<P>,
    readers: u32,
) -> Result<History<P>, Memory>
    requires { (1 ≤ readers) × (readers ≤ 64) }
    ensures history { IfOk result (λ history. history ≡ first.now.value ∷ []) }
    ensures publication { IfOk result (λ history. IsPublication P.number P.of history) }
{
    let next = Arc::try_clone(first)?;
    let history = History::new(alloc, first, readers as usize + NOTES)?;
    let (history, begun) = history.append(rt, next);
    match begun {
        Ok(()) => Ok(history),
        Err(_) => {
            history.end(rt);
            Err(Memory)
        }
    }
}

/// So many observers that have seen the one picture.
fn observers<P: Picture>(
    alloc: Global,
    history: &mut History<P>,
    first: &Arc<P>,
    readers: u32,
) -> Result<Vec<Observer<P>>, Memory>
    requires { history.old ≡ first.now.value ∷ [] }
    ensures history { history.new ≡ history.old }
    ensures observers { IfOk result
        (λ all. all.items ≡ replicate readers (first.now.value ∷ [])) }
{
    let mut all = Vec::new(alloc);
    for _ in 0..readers {
        join(history, first, &mut all)?;
    }
    Ok(all)
}

/// One more observer that has seen the one picture.
fn join<P: Picture>(
    history: &mut History<P>,
    first: &Arc<P>,
    all: &mut Vec<Observer<P>>,
) -> Result<(), Memory>
    requires { history.old ≡ first.now.value ∷ [] }
    ensures history { history.new ≡ history.old }
    ensures all { OnOk result (all.new.items ≡ all.old.items ++ (first.now.value ∷ []) ∷ []) }
{
    all.push(observer(history, first)?)?;
    Ok(())
}

/// An observer that has seen the one picture.
fn observer<P: Picture>(history: &mut History<P>, first: &Arc<P>) -> Result<Observer<P>, Memory>
    requires { history.old ≡ first.now.value ∷ [] }
    ensures history { history.new ≡ history.old }
    ensures observer { IfOk result (λ observer. observer ≡ first.now.value ∷ []) }
{
    let last = Shown {
        picture: Arc::try_clone(first)?,
        count: 1,
    };
    let reader = history.reader()?;
    Ok(Observer::new(Sight::new(last, reader)))
}
