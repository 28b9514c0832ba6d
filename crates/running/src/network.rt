ghost use Rattle.std.specs.Prelude.{◌≡◌, ◌<◌, ◌≤◌, length};
ghost use Rattle.routing.specs.Rules.{leaving};
ghost use Rattle.running.specs.Network.{Ends, Parted, Leads};

use routing::Trunk;

// What a run is shown of a book: `n` exchanges, the trunks, and the open ones by the exchange that they leave.
#[derive(Clone, Copy)]
pub struct Network<'a> {
    pub n: usize,
    pub trunks: &'a [Trunk],
    pub starts: &'a [u16],
    pub listed: &'a [u16],
    ghost few: { n ≤ 256 },
    ghost most: { length trunks.now ≤ 4096 },
    ghost ends: { Ends n trunks.now },
    ghost parted: { Parted n starts.now listed.now },
    ghost leads: { Leads n trunks.now starts.now listed.now },
}

impl<'a> Network<'a> {
    // The open trunks that leave `v`, lowest number first.
    pub fn leaving(self, v: u16) -> &'a [u16]
        requires { v < self.n }
        ensures { result.now ≡ leaving self.entry.trunks.now v }
    {
        let from = self.starts[v as usize] as usize;
        match self.starts.get(v as usize + 1) {
            Some(to) => &self.listed[from..*to as usize],
            None => &self.listed[from..],
        }
    }
}
