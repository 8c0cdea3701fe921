ghost use Rattle.std.specs.Prelude.{◌≡◌, find};
ghost use Rattle.std.specs.Str.{bytes_eq};
ghost use Rattle.asm_lines.specs.Lines.{form_name, form_named};

/// The words of lines that are no instruction of the machine: pseudo-instructions and directives.
#[derive(Clone, Copy)]
pub(crate) enum Form {
    Li,
    La,
    Mv,
    J,
    Call,
    Ret,
    Nop,
    Word,
    Byte,
    Zero,
    Ascii,
    Align,
}

const FORMS: [Form; 12] = [
    Form::Li,
    Form::La,
    Form::Mv,
    Form::J,
    Form::Call,
    Form::Ret,
    Form::Nop,
    Form::Word,
    Form::Byte,
    Form::Zero,
    Form::Ascii,
    Form::Align,
];

/// The form of this name.
#[tactic(auto, unfolding(crate::specs::Lines::form_named))]
pub(crate) fn form_named(word: &str) -> Option<Form>
    ensures { result ≡ form_named word.now }
{
    named_in(&FORMS, word)
}

fn named_in(forms: &[Form], word: &str) -> Option<Form>
    ensures { result ≡ find (λ form. bytes_eq (form_name form) word.now) forms.now }
{
    forms.iter().copied().find(|form| form_name(*form) == word)
}

#[tactic(auto, unfolding(crate::specs::Lines::form_name))]
fn form_name(form: Form) -> &'static str
    ensures { result.now ≡ form_name form }
{
    match form {
        Form::Li => "li",
        Form::La => "la",
        Form::Mv => "mv",
        Form::J => "j",
        Form::Call => "call",
        Form::Ret => "ret",
        Form::Nop => "nop",
        Form::Word => ".word",
        Form::Byte => ".byte",
        Form::Zero => ".zero",
        Form::Ascii => ".ascii",
        Form::Align => ".align",
    }
}
