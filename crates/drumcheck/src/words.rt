// The words of each refusal that reading a text can give: those of docs/REFUSALS.md.
use refusal::Refusal;
use std::fmt;

#[derive(Clone, Copy)]
pub(crate) struct Words(pub(crate) Refusal);

impl fmt::Display for Words {
    fn fmt<W: fmt::Write>(&self, f: &mut fmt::Formatter<W>) -> fmt::Result {
        f.write_str(match self.0 {
            Refusal::TextTooLong => "the text is longer than 65,535 bytes",
            Refusal::NotUtf8 => "the text is not UTF-8",
            Refusal::TooManyLines { .. } => {
                "more than 2,048 lines; comments do not count, nor blank lines outside a literal"
            }
            Refusal::TabInIndentation { .. } => {
                "a tab at the front of a line, even of a blank one"
            }
            Refusal::DocumentMarker { .. } => "a line `---` or `...`",
            Refusal::LinesLeft { .. } => "lines are left over",
            Refusal::AnchorAliasOrTag { .. } => "a value starts with `&`, `*` or `!`",
            Refusal::TextAfterValue { .. } => "there is text behind a value that has ended",
            Refusal::FlowMappingOpen { .. } => "a `{` is not closed on its line",
            Refusal::FlowSequenceOpen { .. } => "a `[` is not closed on its line",
            Refusal::EscapeCut { .. } => "the line ends behind a backslash in double quotes",
            Refusal::UnknownEscape { .. } => {
                "a backslash in double quotes stands before a character that it does not go with"
            }
            Refusal::QuoteOpen { .. } => "a quote is not closed on its line",
            Refusal::EmptyKey { .. } => "there is no key before the colon",
            Refusal::ComplexKey { .. } => "a key starts with `?`, `&` or `*`",
            Refusal::KeyNotScalar { .. } => {
                "a key is `~`, `null`, a list or a mapping, or is missing in braces"
            }
            Refusal::KeyWithoutColon { .. } => {
                "a key in braces has no colon, or no space behind it"
            }
            Refusal::KeyTwice { .. } => "a key stands twice in this mapping",
            Refusal::StuckSequence { .. } => {
                "a list in brackets meets a `}`, or a colon before a space"
            }
            Refusal::TooDeep { .. } => "more than 32 lists and mappings inside one another",
            Refusal::DocumentNotMapping => {
                "the text is no mapping: one value, a list, or nothing at all"
            }
            Refusal::UnknownTopKey => "a key of the programme is not known",
            Refusal::OtherSchema => "`schema` is something else",
            Refusal::NoSchema => "`schema` is missing, empty, a list or a mapping",
            Refusal::NoName => "`name` is missing, empty, a list or a mapping",
            Refusal::TagsNotSequence => "`tags` is no list",
            Refusal::FailOnNotSequence => "`fail_on` is no list",
            Refusal::DefaultsNotMapping => "`defaults` is no mapping",
            Refusal::UnknownDefault => "a default is not known",
            Refusal::DefaultNotScalar => "a default is a list or a mapping",
            Refusal::StepsNotSequence => "`steps` is no list",
            Refusal::StepNotMapping { .. } => "a step is no mapping",
            Refusal::ExpectNotMapping { .. } => "the `expect` of a step is no mapping",
            Refusal::NotOneCommand { .. } => "a step has no command, or more than one",
            Refusal::ExpectBesideBuiltIn { .. } => {
                "`expect` stands beside `repeat`, `set`, `delay`, `expect_not` or `ui.expect`"
            }
            Refusal::WorkTooShort => "the tree of the text is too long",
            Refusal::TooFewLinePlaces => "there are more steps than places for lines",
            Refusal::RecordTooLong => "the record is too long",
            _ => "refused",
        })
    }
}
