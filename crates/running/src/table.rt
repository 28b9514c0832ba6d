ghost use Rattle.std.specs.Prelude.{◌≡◌, ℕ, ◌<◌, true, cond, not, vec_len, vec_capacity, slice_set};
ghost use Rattle.routing.specs.Lists.{has};
ghost use Rattle.running.specs.Table.{SameSize, arrived, dues, is_due, seen_all};

// What a run knows of an exchange. Its label stands in the caller's length list; `reached` tells whether it has one.
// `due`: it is in the waiting list, or its turn in this pass is to come.
#[derive(Clone, Copy, Default)]
pub struct Entry {
    pub reached: bool,
    pub arriving: Option<u16>,
    pub due: bool,
}

// An entry for each exchange.
#[derive(Drop)]
pub struct Table {
    pub entries: Vec<Entry>,
}

impl Table {
    // Trunk `t` reaches `w`. Answers whether `w` is to join the waiting list.
    pub(crate) fn arrive(&mut self, w: u16, t: u16) -> bool
        requires { w < vec_len self.old.entries }
        ensures joins { result ≡ not (is_due self.old w) }
        ensures seen { seen_all self.new ≡ slice_set (seen_all self.old) w (arrived t) }
        ensures dues { dues self.new ≡ slice_set (dues self.old) w true }
        ensures size { SameSize self.old self.new }
    {
        let joins = !self.entries[w as usize].due;
        self.entries[w as usize] = Entry {
            reached: true,
            arriving: Some(t),
            due: true,
        };
        joins
    }

    // `v` is due from now on, or not.
    pub(crate) fn mark(&mut self, v: u16, due: bool)
        requires { v < vec_len self.old.entries }
        ensures seen { seen_all self.new ≡ seen_all self.old }
        ensures dues { dues self.new ≡ slice_set (dues self.old) v due }
        ensures size { SameSize self.old self.new }
    {
        self.entries[v as usize].due = due;
    }
}
