// What making a run looks at.
ghost use Rattle.std.specs.Prelude.{◌≡◌, if◌then◌else◌, Ok, Err};
ghost use Rattle.fault.specs.declared.fault.Fault.TheVariants.{SizeOutOfRange};
ghost use Rattle.run.specs.Checks.{is_sized};
ghost use Rattle.run.specs.Layout.{all_below};

use fault::Fault;

/// A size from 1 to the most.
pub fn sized(size: u8, most: u8) -> Result<u8, Fault>
    ensures { result ≡ (if is_sized most size then Ok size else Err SizeOutOfRange) }
{
    if 1 <= size && size <= most {
        Ok(size)
    } else {
        Err(Fault::SizeOutOfRange)
    }
}

/// Whether each byte is below the limit.
pub fn all_below(bytes: &[u8], limit: u8) -> bool
    ensures { result ≡ all_below limit bytes.now }
{
    bytes.iter().all(|byte| *byte < limit)
}
