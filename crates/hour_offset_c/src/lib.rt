// The call for programs in C: the library's, under its name in the archive.
#![tactic(auto)]

ghost use Rattle.std.specs.Prelude.{◌≡◌};
ghost use Rattle.hour_offset.specs.HourOffset.{call_fault, call_bytes};

// 0, and the offset in the eight result bytes, or the number of a refusal.
#[unsafe(no_mangle)]
pub extern "C" fn pewatuno_hour_offset(res: &mut [u8], records: &[u8]) -> u32
    ensures value { result ≡ call_fault res.old records.now }
    ensures res_after { res.new ≡ call_bytes res.old records.now }
{
    hour_offset::pewatuno_hour_offset(res, records)
}
