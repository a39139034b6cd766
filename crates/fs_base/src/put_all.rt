//! Putting bytes whole.
ghost use Rattle.std.specs.Prelude.{◌≡◌, ◌<◌, ◌≤◌, length, take, OnOk};
ghost use Rattle.std.specs.Result.{IfErr, OnErr};
ghost use Rattle.fs_base.specs.Outside.{Rose, got_after, room_after, HasRoom};

use crate::outside::Sink;

/// The sink failed once it had taken the first `sent` bytes.
#[derive(Clone, Copy, PartialEq, Eq)]
pub struct PutError {
    /// How many bytes the sink took.
    pub sent: u64,
}

/// Puts all the bytes, in at most one `put` a byte. It takes no memory.
///
/// An error where the sink failed: its count of faults rose, and it took exactly the first `sent` bytes.
pub fn put_all<S: Sink>(sink: &mut S, bytes: &[u8]) -> Result<(), PutError>
    requires { HasRoom (S.told sink.old).spare (length bytes.now) }
    ensures got { OnOk result ((S.told sink.new).got ≡ got_after (S.told sink.old).got bytes.now) }
    ensures spare { OnOk result ((S.told sink.new).spare ≡ room_after (S.told sink.old).spare (length bytes.now)) }
    ensures failed { OnErr result (Rose (S.told sink.old).faults (S.told sink.new).faults) }
    ensures sent { IfErr result (λ e. e.sent < length bytes.now) }
    ensures got_sent { IfErr result (λ e. (S.told sink.new).got ≡ got_after (S.told sink.old).got (take e.sent bytes.now)) }
    ensures spare_left { IfErr result (λ e. (S.told sink.new).spare ≡ room_after (S.told sink.old).spare e.sent) }
    ensures counts { (S.told sink.old).faults ≤ (S.told sink.new).faults }
{
    let mut sent = 0;
    while sent < bytes.len() {
        match sink.put(&bytes[sent..]) {
            Ok(taken) => sent += taken as usize,
            Err(_) => return Err(PutError { sent: sent as u64 }),
        }
    }
    Ok(())
}
