// The genomes of those who live, and of those who died in this update.
ghost use Rattle.std.specs.Prelude.{◌≡◌, ◌<◌, ◌^◌, ◌++◌, ◌∷◌, [], None, Some, IfOk, OnErr, OnOk, length, slice_get, slice_set, option_and_then, option_map, fold};
ghost use Rattle.lineage_log.specs.Prelude.{letters};

use avida_port::Memory;
use genome::Genome;
use instruction_set::Letter;
use std::alloc::Global;
use std::marker::Model;
use std::mem;
use std::rc::Rc;

/// By id the genome of each who is kept. Who has the parent's genome unchanged shares it.
#[derive(Drop)]
pub struct People {
    genomes: Vec<Option<Rc<Genome>>>,
    /// The boxes of those who were forgotten last, for those who come.
    boxes: Vec<Rc<Genome>>,
    /// Room for the letters of the next child.
    room: Vec<Letter>,
}

impl Model for People {
    ghost use Rattle.std.specs.Prelude.{List, Option, map, option_map};
    ghost use Rattle.instruction_set.specs.declared.letter.Letter.{Letter};
    ghost use Rattle.genome.specs.Genome.{letters};

    ghost Value = { List (Option (List Letter)) };

    ghost view = { λ p.
        map (λ found. option_map (λ shared. letters shared.value) found) p.genomes.items };
}

impl People {
    /// The founder's genome, with id 0.
    pub fn with_one(alloc: Global, genome: &Genome) -> Result<People, Memory>
        ensures { IfOk result (λ people. people ≡ Some (letters genome.now) ∷ []) }
    {
        let founder = shared_copy(alloc, genome)?;
        let mut people = People {
            genomes: Vec::new(alloc),
            boxes: Vec::new(alloc),
            room: Vec::new(alloc),
        };
        people.push(founder)?;
        Ok(people)
    }

    pub fn len(&self) -> usize
        ensures len { result ≡ length self.now }
        ensures small { result < 2 ^ 63 }
    {
        self.genomes.len()
    }

    pub fn push(&mut self, genome: Rc<Genome>) -> Result<(), Memory>
        ensures ok { OnOk result (self.new ≡ self.old ++ Some (letters genome.value) ∷ []) }
        ensures err { OnErr result (self.new ≡ self.old) }
    {
        self.genomes.push(Some(genome))?;
        Ok(())
    }

    pub fn get(&self, id: u64) -> Option<&Rc<Genome>>
        ensures { option_map (λ found. letters found.now.value) result
            ≡ option_and_then (λ found. found) (slice_get self.now id) }
    {
        match self.genomes.get(id as usize) {
            Some(Some(genome)) => Some(genome),
            _ => None,
        }
    }

    pub fn forget(&mut self, id: u64)
        ensures { self.new ≡ slice_set self.old id None }
    {
        let place = id as usize;
        if place < self.genomes.len() {
            let forgotten = self.genomes[place].take();
            keep_box(&mut self.boxes, forgotten);
        }
    }

    /// The boxes of those who were forgotten before go, so that no more are kept than the dead of
    /// one update had.
    pub fn forget_all(&mut self, ids: &[u64])
        ensures { self.new ≡ fold (λ people id. slice_set people id None) self.old ids.now }
    {
        self.boxes.clear();
        for id in ids {
            self.forget(*id);
        }
    }

    /// Room for the letters of a child: what `boxed` took last out of a box, or an empty vector.
    pub fn room(&mut self, alloc: Global) -> Vec<Letter>
        ensures { self.new ≡ self.old }
    {
        mem::replace(&mut self.room, Vec::new(alloc))
    }

    /// The genome in a box that may be shared: that of one who was forgotten, or a new one.
    pub fn boxed(&mut self, alloc: Global, genome: Genome) -> Result<Rc<Genome>, Memory>
        ensures boxed { IfOk result (λ shared. letters shared.value ≡ letters genome) }
        ensures stays { self.new ≡ self.old }
    {
        if let Some(mut found) = self.boxes.pop() {
            if let Some(place) = Rc::get_mut(&mut found) {
                self.room = mem::replace(place, genome).into_vec();
                return Ok(found);
            }
        }
        Ok(Rc::new(alloc, genome)?)
    }
}

/// Keeps the box of a genome that nobody else shares. Where memory runs out, it goes.
fn keep_box(boxes: &mut Vec<Rc<Genome>>, forgotten: Option<Rc<Genome>>) {
    if let Some(last) = forgotten {
        if Rc::strong_count(&last) == 1 {
            let _ = boxes.push(last);
        }
    }
}

/// A genome of its own, which may be shared.
pub fn shared_copy(alloc: Global, genome: &Genome) -> Result<Rc<Genome>, Memory>
    ensures { IfOk result (λ shared. letters shared.value ≡ letters genome.now) }
{
    let copy = genome.copy(alloc)?;
    Ok(Rc::new(alloc, copy)?)
}
