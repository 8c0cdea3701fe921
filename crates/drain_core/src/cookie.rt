//! The marker that an agent sends behind the last byte of a direction, as DMTCP's agents do. The reading
//! agent does not look at it: it knows since the drain began how many bytes stand before it, keeps these, and
//! has finished when it has read so many more as a cookie has.
ghost use Rattle.std.specs.Prelude.{◌≡◌};
ghost use Rattle.drain_core.specs.Tasks as words;

use sys_abi::ConnId;

/// The cookie of a channel: a magic word, the process that made the channel, and that process's running
/// number.
pub(crate) fn cookie_of(conn: ConnId) -> [u8; 16]
    ensures { result ≡ words.cookie conn }
{
    let [p0, p1, p2, p3] = conn.pid.0.to_le_bytes();
    let [n0, n1, n2, n3] = conn.num.to_le_bytes();
    [
        b'D', b'M', b'T', b'C', b'P', b'C', b'K', b'1', p0, p1, p2, p3, n0, n1, n2, n3,
    ]
}
