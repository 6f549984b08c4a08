ghost use Rattle.std.specs.Prelude.{◌≡◌, ◌⊎◌, ◌≤◌, ◌<◌, ◌+◌, ◌-◌, ◌^◌, ◌++◌, [], ◌∷◌, List, ℕ, length, take, drop, min, Option, IfSome, IfNone, IfOk, OnOk, OnErr, IfErr, None, is_ok, IsErr, if◌then◌else◌, slice_get, slice_index, ⊤};
ghost use Rattle.std.specs.Option.{option_map};
ghost use Rattle.psb_station.specs.View.{View, Outside, Heard};
ghost use Rattle.psb_station.specs.View.Heard.{Frame, Nothing, Clock, Joined, Fault};
ghost use Rattle.psb_station.specs.Span.{Tells_bytes};
ghost use Rattle.psb_station.specs.Past.{Call, Write, Cut, Sync};
ghost use Rattle.psb_station.specs.Ahead.{Ahead, IsDue, called, received, ticked, nothing_known};
ghost use Rattle.psb_station.specs.declared.memory.calls.StationCall.{StationCall};
ghost use Rattle.psb_station.specs.Calls.{Rose, Looks, Writes, Listens, Tells, Torn, CutShort, Same, Only, Grows, written};

use thiserror::Error;

/// The outside failed.
#[derive(Clone, Copy, Debug, PartialEq, Eq, Error)]
#[error("the outside failed")]
pub struct Failed;

/// No disk is longer, in bytes.
pub const LONGEST_DISK: u64 = 1 << 62;

/// A disk.
pub trait Disk {
    ghost view: { Self → View };

    /// What is known of the calls to come.
    ghost ahead: { Self → Ahead } = { λ _. nothing_known };

    /// What is known of a call that fails: its kind, where a write begins, how many bytes it was given,
    /// and the disk before and after it.
    ghost failed: { StationCall → ℕ → ℕ → Self → Self → Type 0 } = { λ _ _ _ _ _. ⊤ };

    /// What is known of a call that answers Ok: its kind, and the disk before and after it.
    ghost worked: { StationCall → Self → Self → Type 0 } = { λ _ _ _. ⊤ };

    /// What is known of a change that answers Ok: the change, and the disk before and after it.
    ghost changed: { Call → Self → Self → Type 0 } = { λ _ _ _. ⊤ };

    /// The length.
    fn len(&mut self) -> Result<u64, Failed>
        ensures due { IsDue StationCall.Len (ahead self.old) → IsErr result }
        ensures ahead { ahead self.new ≡ called StationCall.Len (ahead self.old) }
        ensures failed { OnErr result (failed StationCall.Len 0 0 self.old self.new) }
        ensures worked { OnOk result (worked StationCall.Len self.old self.new) }
        ensures length { IfOk result (λ n. IfSome (view self.new).bytes (λ b. n ≡ length b)) }
        ensures small { IfOk result (λ n. n ≤ 2 ^ 62) }
        ensures looks { Looks (view self.old) (view self.new) }
        ensures cause { OnErr result (Rose (view self.old).disk_faults (view self.new).disk_faults) }
        ensures steady { OnOk result ((view self.new).disk_faults ≡ (view self.old).disk_faults) };

    /// Fills as many bytes as stand from `at` to the end, and answers their number.
    fn read(&mut self, at: u64, into: &mut [u8]) -> Result<usize, Failed>
        ensures due { IsDue StationCall.Read (ahead self.old) → IsErr result }
        ensures ahead { ahead self.new ≡ called StationCall.Read (ahead self.old) }
        ensures failed { OnErr result (failed StationCall.Read 0 0 self.old self.new) }
        ensures worked { OnOk result (worked StationCall.Read self.old self.new) }
        ensures within { IfOk result (λ n. n ≤ length into.new) }
        ensures bytes { IfOk result (λ n. IfSome (view self.new).bytes (λ b.
            (n ≡ min (length into.new) (length b - at)) × (take n into.new ≡ take n (drop at b)))) }
        ensures looks { Looks (view self.old) (view self.new) }
        ensures cause { OnErr result (Rose (view self.old).disk_faults (view self.new).disk_faults) }
        ensures steady { OnOk result ((view self.new).disk_faults ≡ (view self.old).disk_faults) };

    /// Writes over what is there and past the end. Until a sync a crash may leave any bytes in the range.
    fn write_at(&mut self, at: u64, from: &[u8]) -> Result<(), Failed>
        requires within { IfSome (view self.old).bytes (λ b. at ≤ length b) }
        requires fits { at + length from.now < 2 ^ 64 }
        ensures due { IsDue StationCall.Write (ahead self.old) → IsErr result }
        ensures ahead { ahead self.new ≡ called StationCall.Write (ahead self.old) }
        ensures failed { OnErr result (failed StationCall.Write at (length from.now) self.old self.new) }
        ensures worked { OnOk result (worked StationCall.Write self.old self.new) }
        ensures changed { OnOk result (changed (Write at from.now) self.old self.new) }
        ensures bytes { OnOk result (Tells_bytes (view self.new) → (view self.new).bytes ≡ option_map (written at from.now) (view self.old).bytes) }
        ensures small { OnOk result (at + length from.now ≤ 2 ^ 62) }
        ensures writes { Writes (Torn at (length from.now)) (view self.old) (view self.new) }
        ensures cause { OnErr result (Rose (view self.old).disk_faults (view self.new).disk_faults) }
        ensures steady { OnOk result ((view self.new).disk_faults ≡ (view self.old).disk_faults) }
        ensures write_cause { OnErr result (Rose (view self.old).write_faults (view self.new).write_faults) };

    /// Cuts the disk to a length.
    fn cut(&mut self, len: u64) -> Result<(), Failed>
        requires { IfSome (view self.old).bytes (λ b. len ≤ length b) }
        ensures due { IsDue StationCall.Cut (ahead self.old) → IsErr result }
        ensures ahead { ahead self.new ≡ called StationCall.Cut (ahead self.old) }
        ensures failed { OnErr result (failed StationCall.Cut 0 0 self.old self.new) }
        ensures worked { OnOk result (worked StationCall.Cut self.old self.new) }
        ensures changed { OnOk result (changed (Cut len) self.old self.new) }
        ensures bytes { OnOk result (Tells_bytes (view self.new) → (view self.new).bytes ≡ option_map (take len) (view self.old).bytes) }
        ensures writes { Writes (CutShort len) (view self.old) (view self.new) }
        ensures cause { OnErr result (Rose (view self.old).disk_faults (view self.new).disk_faults) }
        ensures steady { OnOk result ((view self.new).disk_faults ≡ (view self.old).disk_faults) }
        ensures write_cause { OnErr result (Rose (view self.old).write_faults (view self.new).write_faults) };

    /// After it a crash leaves what a read gives.
    fn sync(&mut self) -> Result<(), Failed>
        ensures due { IsDue StationCall.Sync (ahead self.old) → IsErr result }
        ensures ahead { ahead self.new ≡ called StationCall.Sync (ahead self.old) }
        ensures failed { OnErr result (failed StationCall.Sync 0 0 self.old self.new) }
        ensures worked { OnOk result (worked StationCall.Sync self.old self.new) }
        ensures changed { OnOk result (changed Sync self.old self.new) }
        ensures bytes { Tells_bytes (view self.new) → (view self.new).bytes ≡ (view self.old).bytes }
        ensures durable { OnOk result (IfSome (view self.new).bytes (λ b. Only b (view self.new))) }
        ensures writes { Writes Same (view self.old) (view self.new) }
        ensures cause { OnErr result (Rose (view self.old).disk_faults (view self.new).disk_faults) }
        ensures steady { OnOk result ((view self.new).disk_faults ≡ (view self.old).disk_faults) }
        ensures write_cause { OnErr result (Rose (view self.old).write_faults (view self.new).write_faults) };

    /// This moment is one of those since an earlier one.
    ghost counts_now: { (d : Self) (t : ℕ) (c : List ℕ) → t ≤ (view d).moment → (view d).may_leave c → (view d).left_since t c (view d).told };

    /// Since this moment there is no other.
    ghost only_now: { (d : Self) (c : List ℕ) (k : ℕ) → (view d).left_since (view d).moment c k → (view d).may_leave c × (k ≡ (view d).told) };

    /// The disk as it reads is one of its images.
    ghost reads_image: { (d : Self) → IfSome (view d).bytes (view d).may_leave };
}

/// A disk with a link, an output and a clock.
pub trait Station: Disk {
    /// What is known of a call of `now`: the station before and after it.
    ghost gave_time: { Self → Self → Type 0 } = { λ _ _. ⊤ };

    /// Tells the link where a node is.
    fn join(&mut self, id: u32, address: &str) -> Result<(), Failed>
        ensures due { IsDue StationCall.Join (Self.ahead self.old) → IsErr result }
        ensures ahead { Self.ahead self.new ≡ called StationCall.Join (Self.ahead self.old) }
        ensures failed { OnErr result (Self.failed StationCall.Join 0 (length address.now) self.old self.new) }
        ensures worked { OnOk result (Self.worked StationCall.Join self.old self.new) }
        ensures listens { Listens (Self.view self.old) (Self.view self.new) }
        ensures kept { (Self.view self.new).outside ≡ record (Self.view self.old).outside {
          heard = (Self.view self.new).outside.heard;
          joined = (Self.view self.new).outside.joined;
          link_faults = (Self.view self.new).outside.link_faults;
        } }
        ensures joined { OnOk result (Grows (Self.view self.old).outside.joined (Self.view self.new).outside.joined ((id, address.now) ∷ [])) }
        ensures not_joined { OnErr result (Grows (Self.view self.old).outside.joined (Self.view self.new).outside.joined []) }
        ensures heard { Grows (Self.view self.old).outside.heard (Self.view self.new).outside.heard ((if is_ok result then Joined else Fault) ∷ []) }
        ensures cause { OnErr result (Rose (Self.view self.old).outside.link_faults (Self.view self.new).outside.link_faults) }
        ensures steady { OnOk result ((Self.view self.new).outside.link_faults ≡ (Self.view self.old).outside.link_faults) };

    /// A frame that came, or none where nothing is ready.
    fn recv(&mut self, into: &mut [u8]) -> Result<Option<usize>, Failed>
        requires { 65507 ≤ length into.old }
        ensures due { IsDue StationCall.Recv (Self.ahead self.old) → IsErr result }
        ensures received { OnOk result (Self.ahead self.new ≡ received (called StationCall.Recv (Self.ahead self.old))) }
        ensures not_received { OnErr result (Self.ahead self.new ≡ called StationCall.Recv (Self.ahead self.old)) }
        ensures failed { OnErr result (Self.failed StationCall.Recv 0 0 self.old self.new) }
        ensures worked { OnOk result (Self.worked StationCall.Recv self.old self.new) }
        ensures within { IfOk result (λ got. IfSome got (λ n. n ≤ length into.new)) }
        ensures finds { IfOk result (λ got. IfSome (Self.ahead self.old).frames (λ frames. option_map (λ n. take n into.new) got ≡ slice_get frames 0)) }
        ensures listens { Listens (Self.view self.old) (Self.view self.new) }
        ensures kept { (Self.view self.new).outside ≡ record (Self.view self.old).outside {
          heard = (Self.view self.new).outside.heard;
          link_faults = (Self.view self.new).outside.link_faults;
        } }
        ensures frame { IfOk result (λ got. IfSome got (λ n. Grows (Self.view self.old).outside.heard (Self.view self.new).outside.heard (Frame (take n into.new) ∷ []))) }
        ensures nothing { IfOk result (λ got. IfNone got (Grows (Self.view self.old).outside.heard (Self.view self.new).outside.heard (Nothing ∷ []))) }
        ensures fault { OnErr result (Grows (Self.view self.old).outside.heard (Self.view self.new).outside.heard (Fault ∷ [])) }
        ensures cause { OnErr result (Rose (Self.view self.old).outside.link_faults (Self.view self.new).outside.link_faults) }
        ensures steady { OnOk result ((Self.view self.new).outside.link_faults ≡ (Self.view self.old).outside.link_faults) };

    /// Sends a frame.
    fn send(&mut self, to: u32, frame: &[u8]) -> Result<(), Failed>
        ensures due { IsDue StationCall.Send (Self.ahead self.old) → IsErr result }
        ensures ahead { Self.ahead self.new ≡ called StationCall.Send (Self.ahead self.old) }
        ensures failed { OnErr result (Self.failed StationCall.Send 0 (length frame.now) self.old self.new) }
        ensures worked { OnOk result (Self.worked StationCall.Send self.old self.new) }
        ensures tells { Tells (Self.view self.old) (Self.view self.new) }
        ensures kept { (Self.view self.new).outside ≡ record (Self.view self.old).outside {
          sent = (Self.view self.new).outside.sent;
          tried = (Self.view self.new).outside.tried;
          send_faults = (Self.view self.new).outside.send_faults;
        } }
        ensures tried { Grows (Self.view self.old).outside.tried (Self.view self.new).outside.tried ((to, frame.now) ∷ []) }
        ensures sent { OnOk result (Grows (Self.view self.old).outside.sent (Self.view self.new).outside.sent ((to, frame.now) ∷ [])) }
        ensures not_sent { OnErr result (Grows (Self.view self.old).outside.sent (Self.view self.new).outside.sent []) }
        ensures counts { (Self.view self.old).outside.send_faults ≤ (Self.view self.new).outside.send_faults }
        ensures cause { OnErr result (Rose (Self.view self.old).outside.send_faults (Self.view self.new).outside.send_faults) }
        ensures steady { OnOk result ((Self.view self.new).outside.send_faults ≡ (Self.view self.old).outside.send_faults) };

    /// Says a text.
    fn say(&mut self, text: &[u8]) -> Result<(), Failed>
        ensures due { IsDue StationCall.Say (Self.ahead self.old) → IsErr result }
        ensures ahead { Self.ahead self.new ≡ called StationCall.Say (Self.ahead self.old) }
        ensures failed { OnErr result (Self.failed StationCall.Say 0 (length text.now) self.old self.new) }
        ensures worked { OnOk result (Self.worked StationCall.Say self.old self.new) }
        ensures tells { Tells (Self.view self.old) (Self.view self.new) }
        ensures kept { (Self.view self.new).outside ≡ record (Self.view self.old).outside {
          said = (Self.view self.new).outside.said;
          say_faults = (Self.view self.new).outside.say_faults;
        } }
        ensures said { OnOk result (Grows (Self.view self.old).outside.said (Self.view self.new).outside.said text.now) }
        ensures not_said { OnErr result (Grows (Self.view self.old).outside.said (Self.view self.new).outside.said []) }
        ensures counts { (Self.view self.old).outside.say_faults ≤ (Self.view self.new).outside.say_faults }
        ensures cause { OnErr result (Rose (Self.view self.old).outside.say_faults (Self.view self.new).outside.say_faults) }
        ensures steady { OnOk result ((Self.view self.new).outside.say_faults ≡ (Self.view self.old).outside.say_faults) };

    /// Whole seconds, which may go back.
    fn now(&mut self) -> u64
        ensures time { IfSome (Self.ahead self.old).times (λ times. result ≡ slice_index times 0) }
        ensures ahead { Self.ahead self.new ≡ ticked (Self.ahead self.old) }
        ensures gave_time { gave_time self.old self.new }
        ensures listens { Listens (Self.view self.old) (Self.view self.new) }
        ensures kept { (Self.view self.new).outside ≡ record (Self.view self.old).outside { heard = (Self.view self.new).outside.heard } }
        ensures heard { Grows (Self.view self.old).outside.heard (Self.view self.new).outside.heard (Clock result ∷ []) };
}
