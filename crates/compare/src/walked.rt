use super::networks::Link;
use super::parts::{Parts, Plain};
use book::making::MOST_EXCHANGES;

// Where a walk ends, and its length.
#[derive(Clone, Copy, PartialEq, Eq)]
pub struct Walk {
    pub end: u16,
    pub length: Parts,
}

// The exchange that the first of these trunks leaves.
pub fn start_of(links: &[Link], trunks: &[u16]) -> Option<u16> {
    let t = trunks.first()?;
    let link = links.get(*t as usize)?;
    Some(link.from)
}

// These trunks as a walk from `start`: none if one is not open, or does not start where the one before ends.
pub fn walked<L: Plain>(links: &[Link], start: u16, trunks: &[u16]) -> Option<Walk> {
    let at_start = Walk {
        end: start,
        length: Parts::ZERO,
    };
    trunks.iter().try_fold(at_start, |walk, t| {
        let link = links.get(*t as usize).copied()?;
        (link.open && link.from == walk.end).then_some(Walk {
            end: link.to,
            length: walk.length + link.parts::<L>(),
        })
    })
}

// Whether no two of these trunks leave the same exchange.
pub fn apart(links: &[Link], trunks: &[u16]) -> bool {
    // As long for every book: a list of the book's own length would want memory for no gain.
    let mut left = [false; MOST_EXCHANGES];
    for t in trunks {
        let Some(link) = links.get(*t as usize) else {
            return false;
        };
        match left.get_mut(link.from as usize) {
            Some(seen) if !*seen => *seen = true,
            _ => return false,
        }
    }
    true
}
