// Who looks.
ghost use Rattle.std.specs.Prelude.{◌≡◌, ◌≤◌, All, IfOk, OnErr, Some, length};
ghost use mathlib.Core.List.{IsPrefix};
ghost use Rattle.published_world.specs.PublicationHistory.{IsPublication, last_of, longer};

use crate::note::Note;
use crate::picture::Picture;
use crate::sight::Sight;
use avida_port::Memory;
use std::marker::Model;
use std::sync::Arc;

/// It looks at what is published. Contracts see it as the history that it has seen or heard of.
#[derive(Drop)]
pub struct Observer<P: Picture> {
    // It is there between any two calls.
    sight: Option<Sight<P>>,
}

impl<P: Picture> Model for Observer<P> {
    ghost use Rattle.std.specs.Prelude.{List, [], IsSome, unwrap_or};

    ghost Value = { List P };

    ghost view = { λ o. unwrap_or o.sight [] };

    ghost invariant = { λ o. IsSome o.sight };
}

impl<P: Picture> Observer<P> {
    pub(crate) fn new(sight: Sight<P>) -> Observer<P>
        ensures { result ≡ sight }
    {
        Observer { sight: Some(sight) }
    }

    /// The last picture of the history that is then seen. It waits for nobody. If memory runs
    /// out, the observer is unchanged.
    pub fn look(&mut self) -> Result<Arc<P>, Memory>
        ensures later { IfOk result (λ _. IsPrefix self.old self.new) }
        ensures last { IfOk result (λ picture. last_of self.new ≡ Some picture.value) }
        ensures err { OnErr result (self.new ≡ self.old) }
        ensures history { IsPublication P.number P.of self.new }
        ensures never_older { IfOk result
            (λ picture. All (λ seen. P.number seen ≤ P.number picture.value) self.old) }
        ensures of { IfOk result
            (λ picture. All (λ seen. P.of seen ≡ P.of picture.value) self.old) }
    {
        let Some(sight) = self.sight.take() else {
            unreachable!()
        };
        let (sight, seen) = sight.look();
        self.sight = Some(sight);
        seen
    }

    /// From now on the longer of the two histories was seen. It waits for nobody and takes no
    /// memory.
    pub fn hear(&mut self, note: Note<P>)
        ensures { self.new ≡ longer self.old note }
    {
        if self.count() < note.sight.count() {
            self.sight = Some(note.sight);
        }
    }

    /// How many pictures were seen or heard of.
    fn count(&self) -> u64
        ensures { result ≡ length self.now }
    {
        match &self.sight {
            Some(sight) => sight.count(),
            None => 0,
        }
    }
}
