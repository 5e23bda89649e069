//! A reply, and the reply that refuses.
ghost use Rattle.std.specs.Prelude.{◌≡◌, IfOk};
ghost use Rattle.statement_replies.specs.Reply.{refused};
ghost use Rattle.statement_replies.specs.Inner.Replied.{or_fault};

use cell_values::{Bytes, Memory};
use chunk_source::ExecFault;
use result_print::{Refusal, refusal_line};
use std::alloc::Global;

/// What a statement is answered.
#[derive(Drop)]
pub struct Reply {
    pub text: Bytes,
    pub refusal: Option<Refusal>,
}

/// Lets a reply go. That it can be let go is proved here once, and not again in each crate that calls this.
pub fn let_go_reply(reply: Reply) {
    drop(reply);
}

/// The reply that refuses.
pub fn refuse(alloc: Global, refusal: Refusal) -> Result<Reply, Memory>
    ensures { IfOk result (λ reply. reply ≡ refused refusal) }
{
    let text = refusal_line(alloc, &refusal)?;
    Ok(Reply {
        text,
        refusal: Some(refusal),
    })
}

/// A reply, or the fault that memory is short.
pub(crate) fn or_fault(reply: Result<Reply, Memory>) -> Result<Reply, ExecFault>
    ensures { result ≡ or_fault reply }
{
    match reply {
        Ok(reply) => Ok(reply),
        Err(Memory) => Err(ExecFault::Memory),
    }
}
