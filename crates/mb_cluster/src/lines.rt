//! Result lines.

ghost use Rattle.std.specs.Prelude.{◌≡◌, IfOk, string_bytes};
ghost use Rattle.mb_cluster.specs.Exchanges.{result_line};

use mb_base::NoMemory;
use mb_msg::Reply;
use mb_sched::hex_word;
use std::alloc::Global;

/// `result SEQ POS HEX` and LF: the number of the request, its position, and the result.
pub(crate) fn result_line(alloc: Global, reply: &Reply) -> Result<String, NoMemory>
    ensures { IfOk result (λ line. string_bytes line ≡ result_line reply.now) }
{
    let result = hex_word(alloc, reply.result.as_slice())?;
    let line = format!(in alloc; "result {} {} {result}\n", reply.seq, reply.pos)?;
    Ok(line)
}
