//! What a command line asks for, as text: the tool, letters for its flags, numbers, and texts in brackets.

use super::{Ask, Request, Target, Text, UsageKind, WordsFault};
use std::alloc::{AllocError, Global};

pub(super) fn told(
    alloc: Global,
    answer: &Result<Request, WordsFault>,
) -> Result<String, AllocError> {
    match answer {
        Ok(request) => request_told(alloc, request),
        Err(WordsFault::Usage { kind }) => String::from_str(alloc, kind_told(*kind)),
        Err(WordsFault::NoMemory) => String::from_str(alloc, "no memory"),
    }
}

fn kind_told(kind: UsageKind) -> &'static str {
    match kind {
        UsageKind::Tool => "Tool",
        UsageKind::Line => "Line",
        UsageKind::Combination => "Combination",
        UsageKind::Number => "Number",
        UsageKind::SameName => "SameName",
    }
}

fn request_told(alloc: Global, request: &Request) -> Result<String, AllocError> {
    match request {
        Request::Info { mft, number, image } => {
            let flags = flags(alloc, &[(*mft, 'm')])?;
            format!(in alloc;
                "info {} {} <{}>",
                flags,
                number_told(alloc, number)?,
                image.as_str()
            )
        }
        Request::Cluster { ask, image } => {
            format!(in alloc; "cluster {} <{}>", ask_told(alloc, ask)?, image.as_str())
        }
        Request::Make {
            file,
            seed,
            clusters,
            cluster,
        } => {
            format!(in alloc;
                "make <{}> {} {} {}",
                file.as_str(),
                *seed,
                *clusters,
                *cluster
            )
        }
        Request::Trial { seed, name } => format!(in alloc; "trial {} <{}>", *seed, name.as_str()),
        Request::Cat {
            target,
            kind,
            name,
            image,
        } => {
            let target = target_told(alloc, target)?;
            let name = text_told(alloc, name)?;
            format!(in alloc; "cat {} {} {} <{}>", target, *kind, name, image.as_str())
        }
        _ => flags_told(alloc, request),
    }
}

fn flags_told(alloc: Global, request: &Request) -> Result<String, AllocError> {
    match request {
        Request::Ls {
            all,
            numbers,
            classify,
            recursive,
            system,
            dos,
            path,
            image,
        } => {
            let set = [
                (*all, 'a'),
                (*numbers, 'i'),
                (*classify, 'F'),
                (*recursive, 'R'),
                (*system, 's'),
                (*dos, 'x'),
            ];
            format!(in alloc;
                "ls {} {} <{}>",
                flags(alloc, &set)?,
                text_told(alloc, path)?,
                image.as_str()
            )
        }
        Request::Cp {
            kind,
            name,
            no_action,
            image,
            source,
            target,
        } => {
            let flags = flags(alloc, &[(*no_action, 'n')])?;
            let name = text_told(alloc, name)?;
            let target = target_told(alloc, target)?;
            format!(in alloc;
                "cp {} {} {} <{}> <{}> {}",
                flags,
                *kind,
                name,
                image.as_str(),
                source.as_str(),
                target
            )
        }
        Request::Clone {
            save,
            restore,
            no_action,
            force,
            output,
            overwrite,
            source,
        } => {
            let set = [
                (*save, 's'),
                (*restore, 'r'),
                (*no_action, 'n'),
                (*force, 'f'),
                (*overwrite, 'O'),
            ];
            format!(in alloc;
                "clone {} {} {}",
                flags(alloc, &set)?,
                text_told(alloc, output)?,
                text_told(alloc, source)?
            )
        }
        Request::Resize {
            info,
            no_action,
            force,
            size,
            image,
        } => {
            let flags = flags(alloc, &[(*info, 'i'), (*no_action, 'n'), (*force, 'f')])?;
            format!(in alloc;
                "resize {} {} <{}>",
                flags,
                number_told(alloc, size)?,
                image.as_str()
            )
        }
        Request::Fix {
            no_action,
            clear_dirty,
            clear_bad,
            rebuild,
            image,
        } => {
            let set = [
                (*no_action, 'n'),
                (*clear_dirty, 'd'),
                (*clear_bad, 'b'),
                (*rebuild, 'r'),
            ];
            format!(in alloc; "fix {} <{}>", flags(alloc, &set)?, image.as_str())
        }
        _ => String::from_str(alloc, "another tool"),
    }
}

// The letters of the flags that are set, or `-`.
fn flags(alloc: Global, set: &[(bool, char)]) -> Result<String, AllocError> {
    let mut letters = String::new(alloc);
    'set: for flag in set {
        if flag.0 {
            letters.push(flag.1)?;
        }
    }
    if letters.is_empty() {
        letters.push('-')?;
    }
    Ok(letters)
}

fn number_told(alloc: Global, number: &Option<u64>) -> Result<String, AllocError> {
    match number {
        Some(number) => format!(in alloc; "{}", *number),
        None => String::from_str(alloc, "-"),
    }
}

fn text_told(alloc: Global, text: &Option<Text>) -> Result<String, AllocError> {
    match text {
        Some(text) => format!(in alloc; "<{}>", text.as_str()),
        None => String::from_str(alloc, "-"),
    }
}

fn target_told(alloc: Global, target: &Target) -> Result<String, AllocError> {
    match target {
        Target::Number { number } => format!(in alloc; "{}", *number),
        Target::Path { path } => format!(in alloc; "<{}>", path.as_str()),
    }
}

fn ask_told(alloc: Global, ask: &Ask) -> Result<String, AllocError> {
    match ask {
        Ask::Info => String::from_str(alloc, "info"),
        Ask::Clusters { from, to } => format!(in alloc; "{}-{}", *from, *to),
        Ask::Number { number } => format!(in alloc; "{}", *number),
        Ask::Path { path } => format!(in alloc; "<{}>", path.as_str()),
    }
}
