//! Lines that deploy.
ghost use Rattle.std.specs.Prelude.{◌≡◌, ◌∷◌, [], Some, None, if◌then◌else◌, IfOk, unwrap_or};
ghost use Rattle.vx_words.specs.Grammar.{AKnown};
ghost use Rattle.vx_words.specs.Reading.{Gives, token_at};
ghost use Rattle.vx_line.specs.Grammar as grammar;
ghost use Rattle.vx_line.specs.Grammar.{is_kind, tell_option, worker_option, config_option, deploy_form};
ghost use Rattle.vx_line.specs.Reading.{choice_in, form_at, number_onto, options_at, options_of};

use crate::instruction::{DeployOptions, Instruction};
use crate::options::{behind_options, context_option, next_option, one, split_name, text_option};
use std::alloc::Global;
use vx_data::{NoMemory, Numbers, Text};
use vx_message::KindSpec;
use vx_words::number::value;
use vx_words::word::word;
use vx_words::{LineFault, MISFIT, ending, piece, token};

/// At most so many instances are in form.
const MAX_INSTANCES: u32 = 1_000;

/// The options of a line that deploys.
#[derive(Drop)]
struct Choices {
    options: DeployOptions,
    /// The address to which the verticles send on, if one is chosen.
    to: Option<Text>,
    config: Numbers,
}

/// Whether the option is there that asks for workers.
fn worker(tail: &[u8]) -> Result<bool, LineFault>
    ensures { Gives (λ worker. if worker then Some tt else None) result (choice_in worker_option (options_of tail.now).words) }
{
    match one(b"+worker", tail)? {
        Some([]) => Ok(true),
        Some(_) => Err(MISFIT),
        None => Ok(false),
    }
}

/// Adds a number, by its text.
fn add_number(text: &[u8], numbers: &mut Vec<i64>) -> Result<(), LineFault>
    ensures { Gives (λ _. numbers.new.items) result (number_onto numbers.old.items text.now) }
{
    let number = value(text).ok_or(MISFIT)?;
    numbers.push(number)?;
    Ok(())
}

/// The numbers that options give, in their order.
fn config(alloc: Global, tail: &[u8]) -> Result<Numbers, LineFault>
    ensures { Gives (λ numbers. numbers) result (choice_in config_option (options_of tail.now).words) }
{
    let mut numbers = Vec::new(alloc);
    let mut rest = tail;
    while let Some((option, behind)) = next_option(rest) {
        let (name, text) = split_name(option);
        if name == b"+config:".as_slice() {
            add_number(text, &mut numbers)?;
        }
        rest = behind;
    }
    Ok(Numbers::new(alloc, numbers.as_slice())?)
}

/// The options of a line that deploys, and the tail behind them.
fn read_choices(alloc: Global, tail: &[u8]) -> Result<(Choices, &[u8]), LineFault>
    ensures { Gives (λ x. ((x.0.options.tell, (if x.0.options.worker then Some tt else None, (x.0.options.pool, (x.0.to, (x.0.config, tt))))), x.1.now)) result (options_at grammar.deploy_options tail.now) }
{
    let rest = behind_options(&["+tell:", "+worker", "+pool:", "+to:", "+config:"], tail)?;
    let tell = context_option(b"+tell:", tail)?;
    let worker = worker(tail)?;
    let pool = text_option(alloc, b"+pool:", tail)?;
    let to = text_option(alloc, b"+to:", tail)?;
    let config = config(alloc, tail)?;
    let options = DeployOptions { worker, pool, tell };
    Ok((
        Choices {
            options,
            to,
            config,
        },
        rest,
    ))
}

/// The name of a kind, and the tail behind it.
fn kind(alloc: Global, tail: &[u8]) -> Result<(Text, &[u8]), LineFault>
    ensures { Gives (λ x. (x.0, x.1.now)) result (token_at (AKnown is_kind) tail.now) }
{
    let (name, rest) = word(tail).ok_or(MISFIT)?;
    if vx_kinds::is_kind(name) {
        Ok((token::text(alloc, name)?, rest))
    } else {
        Err(MISFIT)
    }
}

/// The address to which a verticle sends on: its own where no other is chosen.
fn send_on(alloc: Global, to: Option<Text>, address: &Text) -> Result<Text, NoMemory>
    ensures { IfOk result (λ chosen. chosen ≡ unwrap_or to address.now) }
{
    match to {
        Some(to) => Ok(to),
        None => address.copy(alloc),
    }
}

/// Deploys verticles.
pub fn deploy(alloc: Global, tail: &[u8]) -> Result<Instruction, LineFault>
    ensures { Gives (λ deploy. deploy) result (form_at deploy_form tail.now) }
{
    let (choices, tail) = read_choices(alloc, tail)?;
    let (kind, tail) = kind(alloc, tail)?;
    let (address, tail) = piece::text(alloc, tail)?;
    let (instances, tail) = piece::at_most(MAX_INSTANCES, tail)?;
    ending::end(tail)?;
    let Choices {
        options,
        to,
        config,
    } = choices;
    let to = send_on(alloc, to, &address)?;
    let spec = KindSpec {
        kind,
        address,
        to,
        config,
    };
    Ok(Instruction::Deploy {
        options,
        spec,
        instances,
    })
}
