// The noise report that a span holds, where the plan has the noise decoder read its payload.
ghost use Rattle.std.specs.Prelude.{◌≡◌, ◌≤◌, length};
ghost use Rattle.noise_span.specs.NoiseSpan.{read_by, noise_in, noise_call};

use frame::{unpack, wipe};
use noise::{NoiseReport, decode_noise};
use plan::entry;

// The noise decoder's place among the decoders that a plan names.
const NOISE: u8 = 2;

// A payload of a frame of this type. An empty one has no command, and so no entry.
#[tactic(auto, using(crate::proofs::LawsNoiseSpan::ok_accepted_by))]
fn read_payload(plan: &[u8], kind: u8, payload: &[u8]) -> Option<NoiseReport>
    ensures { result ≡ read_by plan.now kind payload.now }
{
    let Some(&command) = payload.first() else {
        return None;
    };
    if entry(plan, kind, command) != NOISE {
        return None;
    }
    decode_noise(payload).ok()
}

// The frame's body is left in the work area.
fn read_frame(plan: &[u8], frame: &[u8], work: &mut [u8]) -> Option<NoiseReport>
    requires { length frame.now ≤ length work.old }
    ensures { result ≡ noise_in plan.now frame.now }
{
    let Ok(header) = unpack(frame, work) else {
        return None;
    };
    read_payload(plan, work[0], &work[6..6 + header.len])
}

// The work area holds the frame's body meanwhile, and is zero there afterwards. Where it is shorter than the frame, nothing is read.
pub fn noise_in(plan: &[u8], frame: &[u8], work: &mut [u8]) -> Option<NoiseReport>
    ensures result_value { result ≡ (noise_call plan.now frame.now work.old).answer }
    ensures work_after { work.new ≡ (noise_call plan.now frame.now work.old).work }
{
    let n = frame.len();
    if work.len() < n {
        return None;
    }
    let found = read_frame(plan, frame, &mut work[..n]);
    wipe(&mut work[..n]);
    found
}
