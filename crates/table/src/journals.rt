//! The journal of the places where the table was written to since its spare copy was brought up to date.
ghost use Rattle.std.specs.Prelude.{◌≡◌, ℕ, ◌+◌, ◌<◌, ◌≤◌, List, [], ◌∷◌, ◌++◌, IsSomeAnd};
ghost use Rattle.table.specs.Noting.{noted, Follows};

// An array with a count, since an `ArrayVec` is no `Copy`, and the journal is.
/// The first `count` places are those noted, with repeats.
#[derive(Clone, Copy, Drop)]
pub struct NotedPlaces {
    pub places: [u16; 128],
    pub count: usize,
}

impl NotedPlaces {
    fn new() -> NotedPlaces
        ensures { result.count ≡ 0 }
    {
        NotedPlaces {
            places: [0; 128],
            count: 0,
        }
    }

    /// The places noted.
    pub fn as_slice(&self) -> &[u16]
        requires { self.now.count ≤ 128 }
        ensures { result.now ≡ noted self.now }
    {
        &self.places[..self.count]
    }

    fn push(&mut self, i: u16)
        requires { self.old.count < 128 }
        ensures places { noted self.new ≡ noted self.old ++ i ∷ [] }
        ensures count { self.new.count ≡ self.old.count + 1 }
    {
        self.places[self.count] = i;
        self.count += 1;
    }
}

/// `noted` are the places written to, or nothing where there was no room for one.
/// No place from `high` on was written to.
#[derive(Clone, Copy, Drop)]
pub struct Journal {
    pub noted: Option<NotedPlaces>,
    pub high: usize,
}

impl Journal {
    /// Notes that the table is written to at the place i.
    pub fn note(&mut self, i: usize)
        requires { i < 65536 }
        ensures { Follows i self.old self.new }
    {
        self.high = self.high.max(i + 1);
        match &mut self.noted {
            Some(noted) if noted.count < 128 => noted.push(i as u16),
            Some(_) => self.noted = None,
            None => {}
        }
    }

    /// Nothing is noted any more: for where table and spare are the same.
    pub fn clear(&mut self)
        ensures noted { IsSomeAnd self.new.noted (λ v. v.count ≡ 0) }
        ensures high { self.new.high ≡ self.old.high }
    {
        match &mut self.noted {
            Some(noted) => noted.count = 0,
            None => self.noted = Some(NotedPlaces::new()),
        }
    }
}
