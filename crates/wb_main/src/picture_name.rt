//! Messages about a strange name of a picture's file. Nothing else depends on these messages.

use crate::asked::shown_name;
use std::io::Write;
use workbench::{Command, FileName};

/// Says on standard error that the word after `--picture` wasn't taken as the script's name. Says so only if the word looks like a script's
/// name and the command names no script.
pub fn say_if_script(rt: &HostRuntime, command: &Command) {
    if let (Some(picture), None) = (&command.picture, &command.file)
        && picture.as_str().ends_with(".oom")
    {
        let name = shown_name(picture);
        let _ = writeln!(
            rt.stderr(),
            "note: '--picture {name}' names the file for the picture, so the script was read from standard input\n\
             help: name both: '--picture FILE.svg {name}'"
        );
    }
}

/// Says on standard error that the name of the picture's file doesn't end like the name of a picture. Says nothing if the name ends in
/// `.svg`.
pub fn say_if_no_picture(rt: &HostRuntime, picture: &FileName) {
    if !picture.as_str().ends_with(".svg") {
        let name = shown_name(picture);
        let _ = writeln!(
            rt.stderr(),
            "note: the picture is an SVG file, and programs may not open it under a name that doesn't end in '.svg': '{name}'"
        );
    }
}
