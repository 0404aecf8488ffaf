//! A law of the definitions, as the contract of a function that does nothing.
ghost use Rattle.nt_script.specs.Laws.{OutputIsAFunctionOfTheInput};

/// The output is a function of the input: two whole runs of the same input, in which no reply is `error 8`, write the same
/// and count the same.
pub fn output_is_a_function_of_the_input()
    ensures { OutputIsAFunctionOfTheInput }
{
    nt_laws::runs_one_way();
}
