ghost use Rattle.std.specs.Prelude.{◌≡◌, ◌++◌, IsTrue, IfSome, IfNone};
ghost use Rattle.trace_log.specs.Spelling.{bare, of_thread, of_bytes, of_generation, bytes_of, fields_of, is_spellable, kind_number, IsInRange, IsSmall, IsSmallDir, HasSpelling};
ghost use Rattle.trace_log.specs.Candidate.{candidate, refusal_in, dir_in, generation_in};

use sys_abi::{Cause, ConnId, Dir, Fd, Kind, Record, Signal, Tid, VPid};

/// The fields of a record in a trace's file, in their order there. Fields that a kind of record
/// doesn't use are 0.
#[derive(Clone, Copy, PartialEq, Eq)]
pub struct Fields {
    pub kind: u8,
    pub x: u8,
    pub fd: u16,
    pub a: u32,
    pub b: u32,
    pub n: u32,
}

const USER: u8 = 1;

const CALL: u8 = 2;

const DELIVER: u8 = 3;

const ARRIVE: u8 = 4;

const CUT: u8 = 5;

const DRAINED: u8 = 6;

const REFILLED: u8 = 7;

const COMPLETE: u8 = 8;

const REFUSED: u8 = 9;

const LAPSED: u8 = 10;

const UNSUPPORTED: u8 = 1;

const DISK_FAULT: u8 = 2;

const MEMORY: u8 = 3;

const DATAGRAM: u32 = 5;

const COUNTER: u32 = 6;

impl Fields {
    /// The fields of the record.
    #[tactic(auto, unfolding(crate::specs::Spelling::fields_of, crate::specs::Spelling::IsInRange))]
    pub fn of(event: &Record) -> Fields
        requires { IsTrue (is_spellable event.now) }
        ensures value { result ≡ fields_of event.now }
        ensures in_range { IsInRange event.now }
    {
        match *event {
            Record::User { p, t, n } => Fields::of_thread(USER, p, t, n),
            Record::Call { p, t } => Fields::of_thread(CALL, p, t, 0),
            Record::Deliver { p, t, s } => Fields {
                x: s.0 as u8,
                ..Fields::of_thread(DELIVER, p, t, 0)
            },
            Record::Arrive { dir, n } => Fields::of_bytes(ARRIVE, dir, n),
            Record::Cut { generation } => Fields::of_generation(CUT, generation),
            Record::Drained { dir, n } => Fields::of_bytes(DRAINED, dir, n),
            Record::Refilled { dir, n } => Fields::of_bytes(REFILLED, dir, n),
            Record::Complete { generation } => Fields::of_generation(COMPLETE, generation),
            Record::Refused { cause } => Fields::of_refusal(cause),
            Record::Lapsed => Fields::bare(LAPSED),
        }
    }

    fn bare(kind: u8) -> Fields
        ensures { result ≡ bare kind }
    {
        Fields {
            kind,
            x: 0,
            fd: 0,
            a: 0,
            b: 0,
            n: 0,
        }
    }

    fn of_thread(kind: u8, p: VPid, t: Tid, n: u32) -> Fields
        ensures { result ≡ of_thread kind p.0 t.0 n }
    {
        Fields {
            a: p.0,
            b: t.0,
            n,
            ..Fields::bare(kind)
        }
    }

    fn of_bytes(kind: u8, dir: Dir, n: u32) -> Fields
        ensures { result ≡ of_bytes kind dir n }
    {
        Fields {
            x: dir.side,
            a: dir.conn.pid.0,
            b: dir.conn.num,
            n,
            ..Fields::bare(kind)
        }
    }

    fn of_generation(kind: u8, generation: u64) -> Fields
        ensures { result ≡ of_generation kind generation }
    {
        Fields {
            b: (generation % (1 << 32)) as u32,
            n: (generation / (1 << 32)) as u32,
            ..Fields::bare(kind)
        }
    }

    #[tactic(auto, unfolding(crate::specs::Spelling::fields_of, crate::specs::Spelling::IsInRange))]
    fn of_refusal(cause: Cause) -> Fields
        requires { IsTrue (is_spellable (Record.Refused cause)) }
        ensures value { result ≡ fields_of (Record.Refused cause) }
        ensures in_range { IsInRange (Record.Refused cause) }
    {
        match cause {
            Cause::Unsupported { p, fd, kind } => Fields {
                x: UNSUPPORTED,
                fd: fd.0 as u16,
                a: p.0,
                b: kind_number(kind),
                ..Fields::bare(REFUSED)
            },
            Cause::DiskFault => Fields {
                x: DISK_FAULT,
                ..Fields::bare(REFUSED)
            },
            Cause::Memory => Fields {
                x: MEMORY,
                ..Fields::bare(REFUSED)
            },
        }
    }

    /// The one record that has these fields, if any.
    pub fn record(self) -> Option<Record>
        ensures some { IfSome result (λ event. HasSpelling event × (fields_of event ≡ self)) }
        ensures none { IfNone result
            ((event : Record) → HasSpelling event → fields_of event ≡ self → ⊥) }
    {
        let event = self.candidate()?;
        if Fields::of(&event) == self {
            Some(event)
        } else {
            None
        }
    }

    /// The one record that can have these fields, whatever stands in those that it doesn't use.
    #[tactic(auto, unfolding(crate::specs::Candidate::candidate, crate::specs::Spelling::IsInRange))]
    fn candidate(self) -> Option<Record>
        ensures value { result ≡ candidate self }
        ensures spellable { IfSome result (λ event. IsTrue (is_spellable event)) }
        ensures in_range { IfSome result IsInRange }
    {
        let p = VPid(self.a);
        let t = Tid(self.b);
        let dir = self.dir();
        let generation = self.generation();
        match self.kind {
            USER => Some(Record::User { p, t, n: self.n }),
            CALL => Some(Record::Call { p, t }),
            DELIVER if 1 <= self.x && self.x <= 31 => Some(Record::Deliver {
                p,
                t,
                s: Signal(u32::from(self.x)),
            }),
            ARRIVE => Some(Record::Arrive { dir, n: self.n }),
            CUT => Some(Record::Cut { generation }),
            DRAINED => Some(Record::Drained { dir, n: self.n }),
            REFILLED => Some(Record::Refilled { dir, n: self.n }),
            COMPLETE => Some(Record::Complete { generation }),
            REFUSED => self.refusal(),
            LAPSED => Some(Record::Lapsed),
            _ => None,
        }
    }

    #[tactic(auto, unfolding(crate::specs::Candidate::refusal_in, crate::specs::Spelling::IsInRange))]
    fn refusal(self) -> Option<Record>
        ensures value { result ≡ refusal_in self }
        ensures spellable { IfSome result (λ event. IsTrue (is_spellable event)) }
        ensures in_range { IfSome result IsInRange }
    {
        let p = VPid(self.a);
        let fd = Fd(u32::from(self.fd));
        match (self.x, self.b) {
            (UNSUPPORTED, DATAGRAM) => Some(Record::Refused {
                cause: Cause::Unsupported {
                    p,
                    fd,
                    kind: Kind::Datagram,
                },
            }),
            (UNSUPPORTED, COUNTER) => Some(Record::Refused {
                cause: Cause::Unsupported {
                    p,
                    fd,
                    kind: Kind::Counter,
                },
            }),
            (DISK_FAULT, _) => Some(Record::Refused {
                cause: Cause::DiskFault,
            }),
            (MEMORY, _) => Some(Record::Refused {
                cause: Cause::Memory,
            }),
            _ => None,
        }
    }

    fn dir(self) -> Dir
        ensures value { result ≡ dir_in self }
        ensures small { IsSmallDir result }
    {
        Dir {
            conn: ConnId {
                pid: VPid(self.a),
                num: self.b,
            },
            side: self.x,
        }
    }

    fn generation(self) -> u64
        ensures { result ≡ generation_in self }
    {
        u64::from(self.b) + (u64::from(self.n) << 32)
    }

    /// The bytes of the fields.
    pub fn bytes(self) -> [u8; 16]
        ensures { result ≡ bytes_of self }
    {
        let fd = self.fd.to_le_bytes();
        let a = self.a.to_le_bytes();
        let b = self.b.to_le_bytes();
        let n = self.n.to_le_bytes();
        [
            self.kind, self.x, fd[0], fd[1], a[0], a[1], a[2], a[3], b[0], b[1], b[2], b[3], n[0],
            n[1], n[2], n[3],
        ]
    }

    /// The fields that have these bytes.
    pub fn read(bytes: &[u8; 16]) -> Fields
        ensures value { bytes_of result ≡ bytes.now }
        ensures small { IsSmall result }
    {
        Fields {
            kind: bytes[0],
            x: bytes[1],
            fd: u16::from_le_bytes([bytes[2], bytes[3]]),
            a: u32::from_le_bytes([bytes[4], bytes[5], bytes[6], bytes[7]]),
            b: u32::from_le_bytes([bytes[8], bytes[9], bytes[10], bytes[11]]),
            n: u32::from_le_bytes([bytes[12], bytes[13], bytes[14], bytes[15]]),
        }
    }
}

fn kind_number(kind: Kind) -> u32
    ensures { result ≡ kind_number kind }
{
    match kind {
        Kind::Datagram => DATAGRAM,
        Kind::Counter => COUNTER,
        _ => 0,
    }
}
