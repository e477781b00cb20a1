// The items of a payload: each a head, a length byte and as many bytes more.
ghost use Rattle.std.specs.Prelude.{◌≡◌, min, length};
ghost use Rattle.reading.specs.Items.{headed, walk};

// The place after n items, the first of them at `first`, or the payload's length where they do not fit.
#[tactic(auto, using(crate::proofs::LawsItems::apart, crate::proofs::LawsItems::walk_more, crate::proofs::LawsItems::walk_grows), unfolding(crate::specs::Items::walk))]
pub fn items_end(payload: &[u8], head: usize, n: usize, first: usize) -> usize
    ensures { result ≡ min (walk (headed head) payload.now n first) (length payload.now) }
{
    let len = payload.len();
    if len < first {
        return len;
    }
    let mut at = first;
    for _ in 0..n {
        if len - at <= head {
            return len;
        }
        let more = payload[at + head] as usize;
        at += head + 1;
        if len - at < more {
            return len;
        }
        at += more;
    }
    at
}
