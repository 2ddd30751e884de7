//! The data of a plan that are in a file.
ghost use Rattle.cat_run.specs.Loading.{AsksFiles, DataLoads, PlanLoads};

use cat_play::status::Status;
use cat_text::{CatPlan, Data};
use sp_base::{Files, Whole};
use std::str;

// The plan, with the contents of the file in place of its name.
pub(crate) fn load<F: Files>(plan: CatPlan, files: &mut F) -> Result<CatPlan, Status>
    ensures loads { PlanLoads result plan (F.seen files.old) (F.seen files.new) }
    ensures asks { AsksFiles plan.data_ (F.seen files.old) (F.seen files.new) }
{
    let CatPlan {
        role,
        ends,
        data_,
        topics,
        count,
        interval,
        recv_timeout,
        send_timeout,
        recv_max,
        format,
    } = plan;
    match content(data_, files) {
        Err(why) => Err(why),
        Ok(data_) => Ok(CatPlan {
            role,
            ends,
            data_,
            topics,
            count,
            interval,
            recv_timeout,
            send_timeout,
            recv_max,
            format,
        }),
    }
}

// A name that isn't UTF-8 can't be asked for; words have no such name.
fn content<F: Files>(data_: Data, files: &mut F) -> Result<Data, Status>
    ensures loads { DataLoads result data_ (F.seen files.old) (F.seen files.new) }
    ensures asks { AsksFiles data_ (F.seen files.old) (F.seen files.new) }
{
    match data_ {
        Data::None => Ok(Data::None),
        Data::Text(text) => Ok(Data::Text(text)),
        Data::File(name) => match str::from_utf8(name.as_slice()) {
            Err(_) => Err(Status::NoMemory),
            Ok(text) => match files.whole(text) {
                Whole::Bytes(bytes) => Ok(Data::Text(bytes)),
                Whole::Failed => Err(Status::FileFault),
                Whole::NoMemory => Err(Status::NoMemory),
            },
        },
    }
}
