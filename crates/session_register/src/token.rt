//! Tokens: the links of the chain that opens a session.

ghost use Rattle.std.specs.Prelude.{◌≡◌, ◌<◌, IfSome, Some, length};
ghost use Rattle.std.specs.Int.{from_be_bytes, w64};
ghost use Rattle.session_register.specs.Rows.{first_token, greatest, successor};
ghost use Rattle.session_register.specs.Tokens.{IsWord, token_bytes, token_digits, token_of};
ghost use Rattle.session_register.specs.declared.token.Token.{Token};

/// The greatest count of a token, and of accepted openings.
pub(crate) const GREATEST_COUNT: u64 = (1 << 63) - 1;

/// How many digits a token has.
pub const TOKEN_DIGITS: usize = 32;

/// A link of a chain: how many tokens its chain has up to it, and a drawn number.
#[derive(Clone, Copy, Debug, PartialEq, Eq)]
pub struct Token {
    /// 1 for the first token of the chain, and one more for each later one.
    pub count: u64,
    /// The drawn number.
    pub random: u64,
}

impl Token {
    /// Its lower-case hexadecimal digits, as ResumeToken has them.
    pub fn digits(self) -> [u8; TOKEN_DIGITS]
        ensures { result ≡ token_digits self }
    {
        let bytes = self.to_bytes();
        let mut digits = [0; TOKEN_DIGITS];
        match hex::encode_to_slice(bytes.as_slice(), &mut digits) {
            Ok(()) => digits,
            Err(_) => unreachable!(),
        }
    }

    /// The token of these digits, where they are in lower case.
    pub(crate) fn from_digits(digits: &[u8; TOKEN_DIGITS]) -> Option<Token>
        ensures value { IfSome result (λ token. IsWord token × (digits.now ≡ token_digits token)) }
        ensures found { (token : Token) → IsWord token → digits.now ≡ token_digits token
            → result ≡ Some token }
    {
        let mut bytes = [0; 16];
        match hex::decode_to_slice(digits.as_slice(), &mut bytes) {
            Ok(()) => {
                let token = Token::from_bytes(&bytes);
                if token.digits() == *digits {
                    Some(token)
                } else {
                    None
                }
            }
            Err(_) => None,
        }
    }

    /// The token of its 16 bytes.
    pub(crate) fn from_bytes(bytes: &[u8; 16]) -> Token
        ensures { result ≡ token_of bytes.now }
    {
        Token {
            count: number(&bytes[..8]),
            random: number(&bytes[8..]),
        }
    }

    /// Its 16 bytes.
    pub(crate) fn to_bytes(self) -> [u8; 16]
        ensures bytes { result ≡ token_bytes self }
        ensures fits { IsWord self }
    {
        let mut bytes = [0; 16];
        let (count, random) = bytes.split_at_mut(8);
        count.copy_from_slice(&self.count.to_be_bytes());
        random.copy_from_slice(&self.random.to_be_bytes());
        bytes
    }

    /// The first token of a chain.
    pub(crate) fn first(random: u64) -> Token
        ensures { result ≡ first_token random }
    {
        Token { count: 1, random }
    }

    /// The token after this one.
    pub(crate) fn successor(self, fresh: u64) -> Token
        requires { self.count < greatest }
        ensures { result ≡ successor self fresh }
    {
        Token {
            count: self.count + 1,
            random: fresh,
        }
    }
}

fn number(bytes: &[u8]) -> u64
    requires { length bytes.now ≡ 8 }
    ensures { result ≡ from_be_bytes w64 bytes.now }
{
    let mut array = [0; 8];
    array.copy_from_slice(bytes);
    u64::from_be_bytes(array)
}
