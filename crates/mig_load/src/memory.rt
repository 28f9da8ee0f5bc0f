//! Want of memory, as a fault of loading.

ghost use Rattle.std.specs.Prelude.{◌≡◌, Ok, IfOk, IfErr};
ghost use Rattle.mig_load.specs.Memory.{faulted};

use kept_model::LoadFault;
use xs_base::NoMemory;

/// The same answer, with want of memory as a fault of loading.
pub fn or_fault<T>(answer: Result<T, NoMemory>) -> Result<T, LoadFault>
    ensures same { result ≡ faulted answer }
    ensures ok { IfOk result (λ value. answer ≡ Ok value) }
    ensures fault { IfErr result (λ fault. fault ≡ LoadFault.NoMemory) }
{
    match answer {
        Ok(value) => Ok(value),
        Err(NoMemory) => Err(LoadFault::NoMemory),
    }
}
