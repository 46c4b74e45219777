ghost use Rattle.std.specs.Prelude.{◌≡◌};
ghost use Rattle.virtual_cpu.specs.View.{heads_of};
ghost use Rattle.virtual_cpu.specs.Parts.{head_place, with_head};

/// One of the heads that a modifier picks.
#[derive(Clone, Copy)]
pub enum Head {
    Ip,
    Read,
    Write,
}

/// The places of the four heads.
#[derive(Clone, Copy, Default)]
pub struct Heads {
    pub ip: u32,
    pub read: u32,
    pub write: u32,
    pub flow: u32,
}

impl Heads {
    /// IP, READ, WRITE and FLOW at these places.
    pub(crate) fn of(places: [u32; 4]) -> Heads
        ensures { result ≡ heads_of places }
    {
        let [ip, read, write, flow] = places;
        Heads {
            ip,
            read,
            write,
            flow,
        }
    }

    /// The places of IP, READ, WRITE and FLOW.
    pub(crate) fn places(&self) -> [u32; 4]
        ensures { heads_of result ≡ self.now }
    {
        [self.ip, self.read, self.write, self.flow]
    }

    #[inline(always)]
    pub(crate) fn get(&self, head: Head) -> u32
        ensures { result ≡ head_place self.now head }
    {
        match head {
            Head::Ip => self.ip,
            Head::Read => self.read,
            Head::Write => self.write,
        }
    }

    #[inline(always)]
    pub(crate) fn set(&mut self, head: Head, place: u32)
        ensures { self.new ≡ with_head self.old head place }
    {
        match head {
            Head::Ip => self.ip = place,
            Head::Read => self.read = place,
            Head::Write => self.write = place,
        }
    }
}
