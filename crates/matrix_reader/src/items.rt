//! The items of an equation line, and their values.

ghost use Rattle.std.specs.Prelude.{◌≡◌, ◌≢◌, true, Some, None, MatchResult, IfOk};
ghost use Rattle.std.specs.Option.{option_map};
ghost use Rattle.line_lexer.specs.Names.{is_name};
ghost use Rattle.matrix_reader.specs.Items.{SaysItem, unless_zero, value_constant, value_symbol};
ghost use Rattle.matrix_reader.specs.Rules.{term_rule, value_rule};

use crate::place::Item;
use line_lexer::{name, number};
use refusals::Why;
use residue_field::Field;

// A constant, perhaps 0, and perhaps a symbol.
#[derive(Clone, Copy)]
struct Value<F: Field> {
    constant: F,
    symbol: bool,
}

/// What an item `UNKNOWN=VALUE` says, cut at its first `=`. The value is a number, `?`, or a number followed by `+?`.
///
/// The refusals in order: `BadShape` where there is no `=`, `BadName` where the unknown is no name, `BadNumber` and
/// `Vanish` as the number has no residue.
pub fn item<F: Field>(token: &str) -> Result<Item<'_, F>, Why>
    ensures rule { MatchResult result
        (λ _. term_rule F.modulus token.now ≡ None)
        (λ why. term_rule F.modulus token.now ≡ Some why) }
    ensures name { IfOk result (λ item. is_name item.unknown.now ≡ true) }
    ensures constant { IfOk result (λ item. option_map F.number item.constant ≢ Some 0) }
    ensures says { IfOk result (λ item.
        SaysItem F.modulus token.now item.unknown.now (option_map F.number item.constant) item.symbol) }
{
    let Some((unknown, value)) = token.split_once('=') else {
        return Err(Why::BadShape);
    };
    name(unknown)?;
    let value = read_value(value)?;
    Ok(Item {
        unknown,
        constant: unless_zero(value.constant),
        symbol: value.symbol,
    })
}

// A constant, where it is not 0.
fn unless_zero<F: Field>(constant: F) -> Option<F>
    ensures { option_map F.number result ≡ unless_zero (F.number constant) }
{
    if constant.value() == 0 {
        None
    } else {
        Some(constant)
    }
}

// A number, `?`, or a number followed by `+?`.
fn read_value<F: Field>(text: &str) -> Result<Value<F>, Why>
    ensures { MatchResult result
        (λ value. (value_rule F.modulus text.now ≡ None)
        × (F.number value.constant ≡ value_constant F.modulus text.now)
        × (value.symbol ≡ value_symbol text.now))
        (λ why. value_rule F.modulus text.now ≡ Some why) }
{
    if text == "?" {
        let constant = F::zero();
        return Ok(Value {
            constant,
            symbol: true,
        });
    }
    match text.strip_suffix("+?") {
        Some(digits) => {
            let constant = number(digits)?;
            Ok(Value {
                constant,
                symbol: true,
            })
        }
        None => {
            let constant = number(text)?;
            Ok(Value {
                constant,
                symbol: false,
            })
        }
    }
}
