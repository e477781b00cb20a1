// A payload split as a message: the command byte, the kind if there is one, and the body, everything after these two.
ghost use Rattle.std.specs.Prelude.{◌≡◌};
ghost use Rattle.reading.specs.Message.{split_of, message_body};
ghost use Rattle.base.specs.Refusal.{outcome_of};

use frame::Refusal;

#[derive(Clone, Copy, Debug, PartialEq, Eq)]
pub struct Message {
    pub command: u8,
    pub kind: Option<u8>,
    // of the whole payload
    pub len: usize,
}

impl Message {
    #[tactic(auto, unfolding(crate::specs::Message::split_of))]
    pub fn split(payload: &[u8]) -> Result<Message, Refusal>
        ensures { outcome_of result ≡ split_of payload.now }
    {
        let &[command, ..] = payload else {
            return Err(Refusal::OtherMessage);
        };
        Ok(Message {
            command,
            kind: payload.get(1).copied(),
            len: payload.len(),
        })
    }

    // Empty where the payload has no body.
    pub fn body(payload: &[u8]) -> &[u8]
        ensures { result.now ≡ message_body payload.now }
    {
        payload.get(2..).unwrap_or(&[])
    }
}
