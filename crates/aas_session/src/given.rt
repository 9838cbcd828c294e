// What is given of an answer.
ghost use Rattle.aas_session.specs.WholeReply.{IsMeasured};

use crate::machine::{Answer, Machine};
use aas_http::put_reply;
use aas_out::{Out, Pour, Pouring};
use aas_outside::Failed;

/// An answer, with the machine that pours what follows its reply.
#[derive(Drop)]
pub(crate) struct WholeAnswer<'a, M: Machine> {
    pub machine: &'a M,
    pub answer: &'a Answer<M::Plan>,
    ghost measured: { IsMeasured (M.poured machine.now) answer.now },
}

impl<'a, M: Machine> Pour for WholeAnswer<'a, M> {
    ghost use Rattle.aas_http.specs.ReplyText.{reply_text};
    ghost use Rattle.aas_session.specs.WholeReply.{whole_reply};

    ghost text = { λ given. reply_text (whole_reply (M.poured given.machine.now) given.answer.now) };

    fn pour<O: Out>(&self, out: &mut O) -> Result<(), Failed> {
        match put_reply(Pouring::Going, &self.answer.reply, out) {
            Pouring::Going => match &self.answer.plan {
                Some(plan) => self.machine.pour(plan, out),
                None => Ok(()),
            },
            Pouring::Stopped => Err(Failed),
        }
    }
}
