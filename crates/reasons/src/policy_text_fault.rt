/// Why a text is no policy: the kind of its first fault from the left.
#[derive(Clone, Copy, Debug, PartialEq, Eq)]
pub enum PolicyTextFault {
    /// More than 4,096 bytes, or a 257th principal.
    TooLarge,
    /// A token that can't stand where it does, or the end of the text.
    Syntax,
    /// Between quotes, but no organization, dot and role.
    Role,
    /// A gate that asks for none of its members, or for too many.
    Threshold,
    /// A gate inside 32 others.
    TooDeep,
}
