ghost use Rattle.std.specs.Prelude.{◌≡◌};
ghost use Rattle.std.specs.List.{list_all};
ghost use Rattle.text_grammar.specs.Bytes.{is_alphanumeric};
ghost use Rattle.text_grammar.specs.Systems.{is_direction as is_direction_text, is_system as is_system_name};

/// The greatest length of the name of a system.
pub const LONGEST_SYSTEM: usize = 62;

/// Whether these bytes are `msd_` or `lsd_`.
pub fn is_direction(bytes: &[u8]) -> bool
    ensures { result ≡ is_direction_text bytes.now }
{
    bytes == b"msd_".as_slice() || bytes == b"lsd_".as_slice()
}

/// Whether all bytes are letters and digits. It takes no memory.
pub fn all_alphanumeric(bytes: &[u8]) -> bool
    ensures { result ≡ list_all is_alphanumeric bytes.now }
{
    bytes.iter().all(|byte| byte.is_ascii_alphanumeric())
}

/// Whether the bytes have the form of a system's name.
#[tactic(auto, unfolding(crate::specs::Systems::is_system))]
pub fn is_system(part: &[u8]) -> bool
    ensures { result ≡ is_system_name part.now }
{
    let len = part.len();
    5 <= len && len <= LONGEST_SYSTEM && is_direction(&part[..4]) && all_alphanumeric(&part[4..])
}
