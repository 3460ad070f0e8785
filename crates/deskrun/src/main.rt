// `deskrun` as a program of Rattle alone, which `rt ci` builds and runs: a task file in, the printed lines out. It ends with status 0
// whatever the file; `exits` is the program that passes the number on, and that ./deskrun runs.
#![tactic(auto)]

fn main(rt: HostRuntime) {
    let mut file = [0u8; filter::FILE_ROOM];
    let mut text = [0u8; filter::TEXT_ROOM];
    filter::deskrun(&rt, &mut file, &mut text);
}
