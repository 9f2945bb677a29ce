//! The help, from the table.

ghost use Rattle.std.specs.Prelude.{◌≡◌, ◌++◌, None, IfOk, OnOk, string_bytes};
ghost use Rattle.std.specs.List.{flat_map};
ghost use Rattle.ips_words.specs.Help as page;

use ips_syntax::{
    Form, Operands, Role, VERBS, Verb, operands_of, options_of, required_of, role_name, sets,
    value_form, verb_name,
};
use ips_text::Text;
use std::alloc::{AllocError, Global};

/// The help of one command, or of all.
pub fn help(alloc: Global, command: Option<Verb>) -> Result<Text, AllocError>
    ensures { IfOk result (λ text. text ≡ page.help_text command) }
{
    let mut out = String::new(alloc);
    push_head(&mut out)?;
    push_body(&mut out, command)?;
    push_foot(&mut out)?;
    Ok(Text::from_string(out))
}

/// The version of the program, which `--version` shows.
pub fn version() -> &'static str
    ensures { result.now ≡ page.version_text }
{
    "pkg 0.1"
}

// Writes how a command is given.
#[tactic(auto, unfolding(crate::specs::Help::head_text))]
fn push_head(out: &mut String) -> Result<(), AllocError>
    ensures { OnOk result (string_bytes out.new ≡ string_bytes out.old ++ page.head_text) }
{
    out.push_str(
        "usage: pkg -R <image> -s <repository> <command>\n       pkg --help | --version | <command> --help\n",
    )
}

// Writes the numbers that the program ends with.
#[tactic(auto, unfolding(crate::specs::Help::foot_text))]
fn push_foot(out: &mut String) -> Result<(), AllocError>
    ensures { OnOk result (string_bytes out.new ≡ string_bytes out.old ++ page.foot_text) }
{
    out.push_str(
        "exit status: 0 done, 1 refused, failed or damaged, 2 bad words, 4 nothing to do, 6 license needed, 7 another pkg at work, 99 out of memory\n",
    )
}

// Writes the lines of one command, or of all.
fn push_body(out: &mut String, command: Option<Verb>) -> Result<(), AllocError>
    ensures { OnOk result (string_bytes out.new ≡ string_bytes out.old ++ page.body_text command) }
{
    match command {
        Some(verb) => push_command(out, verb),
        None => push_all(out),
    }
}

// Writes the lines of all commands.
fn push_all(out: &mut String) -> Result<(), AllocError>
    ensures { OnOk result (string_bytes out.new ≡ string_bytes out.old ++ page.body_text None) }
{
    push_commands(out, &VERBS)?;
    push_mogrify(out)?;
    push_send(out)
}

// Writes the lines of `mogrify`.
#[tactic(auto, unfolding(crate::specs::Help::mogrify_text))]
fn push_mogrify(out: &mut String) -> Result<(), AllocError>
    ensures { OnOk result (string_bytes out.new ≡ string_bytes out.old ++ page.mogrify_text) }
{
    out.push_str(
        "  mogrify -d <folder> <rules> <manifest>\n      print what the rules make of the manifest, both files of the folder; these words stand alone, without -R and -s\n",
    )
}

// Writes the lines of `send`.
#[tactic(auto, unfolding(crate::specs::Help::send_text))]
fn push_send(out: &mut String) -> Result<(), AllocError>
    ensures { OnOk result (string_bytes out.new ≡ string_bytes out.old ++ page.send_text) }
{
    out.push_str(
        "  send -s <repository> -d <folder> create <publisher>\n      make a repository of the publisher, without packages\n  send -s <repository> -d <folder> publish <name> <manifest>\n      publish the version that the name tells; its manifest and contents are in the folder; these words stand in just this order, without -R\n",
    )
}

// Writes the lines of each command.
fn push_commands(out: &mut String, verbs: &[Verb]) -> Result<(), AllocError>
    ensures { OnOk result (string_bytes out.new ≡ string_bytes out.old ++ flat_map page.command_text verbs.now) }
{
    for verb in verbs {
        push_command(out, *verb)?;
    }
    Ok(())
}

// Writes the lines of a command.
fn push_command(out: &mut String, verb: Verb) -> Result<(), AllocError>
    ensures { OnOk result (string_bytes out.new ≡ string_bytes out.old ++ page.command_text verb) }
{
    out.push_str("  ")?;
    out.push_str(verb_name(verb))?;
    push_options(out, verb, options_of(verb))?;
    push_operands(out, operands_of(verb))?;
    out.push_str("\n      ")?;
    out.push_str(deed(verb))?;
    out.push_str("\n")?;
    Ok(())
}

// Writes each option.
fn push_options(out: &mut String, verb: Verb, roles: &[Role]) -> Result<(), AllocError>
    ensures { OnOk result (string_bytes out.new ≡ string_bytes out.old ++ flat_map (page.option_text verb) roles.now) }
{
    for role in roles {
        push_option(out, verb, *role)?;
    }
    Ok(())
}

// Writes an option.
fn push_option(out: &mut String, verb: Verb, role: Role) -> Result<(), AllocError>
    ensures { OnOk result (string_bytes out.new ≡ string_bytes out.old ++ page.option_text verb role) }
{
    let required = is_required(verb, role);
    out.push_str(if required { " " } else { opening(role) })?;
    out.push_str(role_name(role))?;
    out.push_str(form_name(value_form(role)))?;
    if required {
        return Ok(());
    }
    out.push_str(closing(role))
}

// What stands before an option that needn't stand.
fn opening(role: Role) -> &'static str
    ensures { result.now ≡ page.opening role }
{
    match role {
        Role::NonSticky => " | ",
        _ => " [",
    }
}

// What stands behind it.
fn closing(role: Role) -> &'static str
    ensures { result.now ≡ page.closing role }
{
    match role {
        Role::Sticky => "",
        Role::Facet | Role::Reject | Role::Variant => "]..",
        _ => "]",
    }
}

// Whether the option is the only one that is required.
fn is_required(verb: Verb, role: Role) -> bool
    ensures { result ≡ page.is_required verb role }
{
    let required = required_of(verb);
    required.len() == 1 && required.iter().any(|other| sets(*other) == sets(role))
}

// Writes the form of operands.
fn push_operands(out: &mut String, operands: Operands) -> Result<(), AllocError>
    ensures { OnOk result (string_bytes out.new ≡ string_bytes out.old ++ page.operands_text operands) }
{
    if operands.most == 0 {
        return Ok(());
    }
    if operands.most == 1 {
        return out.push_str(form_name(operands.form));
    }
    if operands.least == 0 {
        out.push_str(" [")?;
        out.push_str(form_name(operands.form))?;
        return out.push_str(" ]...");
    }
    out.push_str(form_name(operands.form))?;
    out.push_str(" ...")
}

// How the help shows a word of a form.
fn form_name(form: Form) -> &'static str
    ensures { result.now ≡ page.form_text form }
{
    match form {
        Form::Nothing => "",
        Form::Any => " <word>",
        Form::Filled => " <name>",
        Form::Implementation => " <text>",
        Form::Publisher => " <publisher>",
        Form::Stem => " <stem>",
        Form::Pattern => " <pattern>",
        Form::Freeze => " <stem>@<version>",
        Form::Version => " <version>",
        Form::Limit => " <number>",
        Form::Count => " <number>",
        Form::Variant => " variant.<name>=<value>",
        Form::Switch => " facet.<name>=true|false",
        Form::Setting => " facet.<name>=true|false|none",
    }
}

// What a command does.
fn deed(verb: Verb) -> &'static str
    ensures { result.now ≡ page.deed verb }
{
    match verb {
        Verb::ImageCreate => "make an image",
        Verb::Install => "install packages, or newer versions of them",
        Verb::Update => "update packages, all of them where none is named",
        Verb::Uninstall => "remove packages",
        Verb::Fix => "finish a change that was stopped; where none was, repair what verify finds",
        Verb::Verify => "tell what differs from the packages",
        Verb::List => "show the installed packages",
        Verb::Contents => {
            "show the paths that an installed package delivers; -m shows its manifest"
        }
        Verb::History => "show which commands changed the image",
        Verb::Search => {
            "show where a word stands in the installed packages; * and ? are wildcards"
        }
        Verb::RebuildIndex => "make the index that search reads",
        Verb::ChangeFacet => "set facets, or take their settings away",
        Verb::ChangeVariant => "set a variant",
        Verb::SetMediator =>
            "choose among mediated links by -V, by -I or by both: one has to stand",
        Verb::UnsetMediator => "leave the choice among mediated links to the packages",
        Verb::Avoid => "keep group dependencies from installing these packages",
        Verb::Unavoid => "take packages from the avoid list",
        Verb::Freeze => "keep packages at versions",
        Verb::Unfreeze => "let frozen packages go",
        Verb::SetPublisher =>
            "put a publisher into the list, or change its place and stickiness; packages come from the image's own alone",
        Verb::UnsetPublisher => "take a publisher from the list",
        Verb::UpdateFormat => "move the image's records to the present format",
        Verb::Gen => "try the program on a repository of so many packages, in memory",
    }
}
