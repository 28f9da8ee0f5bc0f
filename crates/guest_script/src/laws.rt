//! A law on made scripts. It is the contract of a function that does nothing.

ghost use Rattle.guest_script.specs.Laws.{MadeScriptsRead};

use xs_base::laws;

/// Every made script has no faulty line, whatever its seed and its number of operations.
pub fn made_scripts_read()
    ensures { MadeScriptsRead }
{
    laws::hex_reads_back();
    laws::decimal_reads_back();
}
